//! The ways in which a segment spells its rows.

/// How a segment spells its rows.
#[derive(Clone, Copy, Debug, PartialEq, Eq)]
pub enum Coding {
    /// Row by row.
    Plain,
    /// One value, which all rows have.
    Constant,
    /// Values that each fill rows, and where these end.
    Runs,
}
