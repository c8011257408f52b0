//! Words of one mask behind those of another.

ghost use Rattle.std.specs.Prelude.{◌≡◌, ◌+◌, ◌*◌, ◌^◌, ◌<◌, ◌≤◌, length, IfOk};
ghost use Rattle.vx_masks.specs.Words.{number_of, IsShiftedBehind, IsPushed};

use std::alloc::AllocError;

/// Adds the words, each shifted left, behind what is carried from the word before. Returns what is carried
/// from the last one.
pub(crate) fn push_shifted(
    words: &mut Vec<u64>,
    carry: u64,
    shift: u64,
    others: &[u64],
) -> Result<u64, AllocError>
    requires inside { shift < 64 }
    requires small { carry < 2 ^ shift }
    ensures { IfOk result (λ rest. IsShiftedBehind words.old.items carry shift others.now words.new.items rest) }
{
    let mut rest = carry;
    for word in others {
        words.push(rest + (*word << shift))?;
        rest = *word >> (63 - shift) >> 1;
    }
    Ok(rest)
}

/// Adds so many bits behind what is carried. Returns what is carried from them.
pub(crate) fn push_part(
    words: &mut Vec<u64>,
    carry: u64,
    shift: u64,
    value: u64,
    count: u64,
) -> Result<u64, AllocError>
    requires inside { shift < 64 }
    requires small { carry < 2 ^ shift }
    requires few { count ≤ 64 }
    requires fits { value < 2 ^ count }
    ensures { IfOk result (λ rest. IsPushed words.old.items carry shift value count words.new.items rest) }
{
    let joined = carry + (value << shift);
    if shift + count < 64 {
        return Ok(joined);
    }
    words.push(joined)?;
    Ok(value >> (63 - shift) >> 1)
}
