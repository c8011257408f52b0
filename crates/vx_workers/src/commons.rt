//! What all workers of a scan share.

use crate::books::ValueCache;
use vx_claims::Claims;
use vx_drive::ScanPlans;
use vx_splits::SelectedRows;

/// The plans of the scan; its chunks, and the claims of these; the cache of whole values, and whether workers borrow from it.
#[derive(Clone, Copy)]
pub struct Common<'a> {
    pub plans: &'a ScanPlans,
    pub chunks: &'a [SelectedRows],
    pub claims: &'a Claims,
    pub cache: &'a ValueCache,
    pub shares: bool,
}
