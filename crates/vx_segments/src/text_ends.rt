//! Where texts end whose lengths bytes spell.

ghost use Rattle.std.specs.Prelude.{◌≡◌, ◌*◌, ◌≤◌, ◌++◌, length, IfOk, IfSome, IsNone};
ghost use Rattle.std.specs.Int.{w32, to_le_bytes};
ghost use Rattle.vx_arrays.specs.Texts.{AreEnds};
ghost use Rattle.vx_segments.specs.Reading.{ends_read};

use std::alloc::{AllocError, Global};

/// The number of 32 bits that the first four bytes spell, and the bytes behind them.
pub(crate) fn four_at(bytes: &[u8]) -> (u32, &[u8])
    requires { 4 ≤ length bytes.now }
    ensures { bytes.now ≡ to_le_bytes w32 result.0 ++ result.1.now }
{
    let (word, rest) = bytes.split_at(4);
    (
        u32::from_le_bytes([word[0], word[1], word[2], word[3]]),
        rest,
    )
}

/// Where the texts of so many rows end whose lengths the bytes spell. None where they do not fill the room.
pub(crate) fn ends_of(
    alloc: Global,
    rows: u64,
    lengths: &[u8],
    room: usize,
) -> Result<Option<Vec<usize>>, AllocError>
    requires { length lengths.now ≡ 4 * rows }
    ensures ends { IfOk result (λ found. IfSome found (λ ends. ends.items ≡ ends_read rows lengths.now)) }
    ensures filled { IfOk result (λ found. IfSome found (λ ends. AreEnds 0 room ends.items)) }
    ensures none { IfOk result (λ found. IsNone found → ¬ (AreEnds 0 room (ends_read rows lengths.now))) }
{
    let mut ends = Vec::with_capacity(alloc, rows as usize)?;
    let mut end: usize = 0;
    let mut rest = lengths;
    for _row in 0..rows {
        let (len, more) = four_at(rest);
        if room - end < len as usize {
            return Ok(None);
        }
        end += len as usize;
        ends.push(end)?;
        rest = more;
    }
    if end == room {
        Ok(Some(ends))
    } else {
        Ok(None)
    }
}
