//! Counts by key, in a map.

ghost use Rattle.std.specs.Prelude.{◌≡◌, ◌==◌, ℕ, if◌then◌else◌, Some, None, OnOk, OnErr};
ghost use Rattle.std.specs.BTreeMap.{get};
ghost use Rattle.std.specs.Ordering.{nat_cmp};
ghost use Rattle.vx_steps.specs.Counts.{count_in};

use std::alloc::AllocError;
use std::collections::BTreeMap;

/// The count of a key, 0 where it has none.
pub(crate) fn count_of(counts: &BTreeMap<u32, u64>, key: u32) -> u64
    ensures { result ≡ count_in counts.now key }
{
    match counts.get(&key) {
        Some(count) => *count,
        None => 0,
    }
}

/// Sets the count of a key. Where memory is wanting, all is as before; a key that has a count needs none.
pub(crate) fn put_count(
    counts: &mut BTreeMap<u32, u64>,
    key: u32,
    count: u64,
) -> Result<(), AllocError>
    ensures put { OnOk result ((k : ℕ) → get nat_cmp counts.new k ≡ (if key == k then Some count else get nat_cmp counts.old k)) }
    ensures as_before { OnErr result ((k : ℕ) → get nat_cmp counts.new k ≡ get nat_cmp counts.old k) }
    ensures wanting { OnErr result (get nat_cmp counts.old key ≡ None) }
{
    counts.insert(key, count)?;
    Ok(())
}
