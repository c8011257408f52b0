//! Why there is no table of zones.

use thiserror::Error;

/// Why there is no table of zones.
#[derive(Clone, Copy, Debug, PartialEq, Eq, Error)]
pub enum ZoneError {
    /// The column is no table of these statistics of so many rows.
    #[error("the zones are no table of the statistics")]
    BadZones,
    /// There is no memory left.
    #[error("out of memory")]
    Memory,
}
