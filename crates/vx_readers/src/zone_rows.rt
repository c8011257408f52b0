//! A truth value for each zone, as one for each row of the zones: not row by row, but those of a zone at once.

ghost use Rattle.std.specs.Prelude.{◌≡◌, ◌+◌, ◌*◌, ◌<◌, ◌≤◌, ◌++◌, ◌^◌, length, replicate, IfOk};
ghost use Rattle.vx_readers.specs.ZoneRows.{zone_bits};

use std::alloc::{AllocError, Global};
use vx_base::Mask;

/// The rows of a mask, and so many more that are all so or all not so.
fn append_alike(alloc: Global, bits: Mask, is: bool, count: u64) -> Result<Mask, AllocError>
    ensures { IfOk result (λ longer. longer ≡ bits ++ replicate count is) }
{
    let more = if is {
        Mask::new_true(alloc, count)
    } else {
        Mask::new_false(alloc, count)
    };
    match more {
        Ok(more) => {
            let longer = bits.append(&more);
            drop(more);
            longer
        }
        Err(error) => {
            drop(bits);
            Err(error)
        }
    }
}

/// The truth value of its zone for each of `count` rows, from the row `start` on; each zone has `zone_len` rows.
pub(crate) fn zone_rows(
    alloc: Global,
    zones: &Mask,
    zone_len: u64,
    start: u64,
    count: u64,
) -> Result<Mask, AllocError>
    requires some { 0 < zone_len }
    requires few { start + count < 2 ^ 64 }
    requires inside { start + count ≤ length zones.now * zone_len }
    ensures { IfOk result (λ rows. rows ≡ zone_bits zones.now zone_len start count) }
{
    let mut rows = Mask::with_room(alloc, count)?;
    let end = start + count;
    let mut row = start;
    let mut is = false;
    let mut alike = 0;
    'zones: while row < end {
        let here = (zone_len - row % zone_len).min(end - row);
        let next = zones.value(row / zone_len);
        if next != is {
            rows = append_alike(alloc, rows, is, alike)?;
            is = next;
            alike = 0;
        }
        alike += here;
        row += here;
    }
    append_alike(alloc, rows, is, alike)
}
