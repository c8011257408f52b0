//! Words that masks share: those of a mask that chooses each of its rows.

ghost use Rattle.std.specs.Prelude.{◌≡◌, ◌≤◌, [], IfOk};
ghost use Rattle.vx_masks.specs.Words.{held};

use std::alloc::AllocError;

/// At most so many rows share words.
pub(crate) const MOST_SHARED_ROWS: u64 = 65536;

/// Words in which each row is chosen.
static ALL_CHOSEN: [u64; 1024] = [u64::MAX; 1024];

/// The words of a mask of so many rows that keeps these.
pub(crate) fn held_words(kept: &[u64], len: u64) -> &[u64]
    requires { kept.now ≡ [] → len ≤ 65536 }
    ensures { result.now ≡ held len kept.now }
{
    if kept.is_empty() {
        &ALL_CHOSEN[..(len / 64) as usize]
    } else {
        kept
    }
}

/// The words of a mask of so many rows that keeps these, in memory of their own. It takes none where words are kept.
pub(crate) fn own_words(kept: Vec<u64>, len: u64) -> Result<Vec<u64>, AllocError>
    ensures { IfOk result (λ words. words.items ≡ held len kept.items) }
{
    if !kept.is_empty() {
        return Ok(kept);
    }
    let mut words = kept;
    words.resize((len / 64) as usize, u64::MAX)?;
    Ok(words)
}
