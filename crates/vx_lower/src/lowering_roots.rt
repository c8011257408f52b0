//! The lowering of a layout tree into a table of plans.

ghost use Rattle.std.specs.Prelude.{◌≡◌, ◌+◌, ◌*◌, ◌≤◌, length, IfOk, IsSomeAnd, slice_get};
ghost use Rattle.vx_layout.specs.Kept.{kept_data};
ghost use Rattle.vx_layout.specs.Trees.{subtree};
ghost use Rattle.vx_plan.specs.Plans.{plan_at};
ghost use Rattle.vx_plan.specs.Refs.{number_of};
ghost use Rattle.vx_plan.specs.Tables.{IsGoodTable};
ghost use Rattle.vx_lower.specs.KeptRows.{MayKeep};
ghost use Rattle.vx_lower.specs.Lowered.{lowered};
ghost use Rattle.vx_lower.specs.NodeParts.{CanLower};
ghost use Rattle.vx_lower.specs.Numbered.{numbered, AddsPlan, NumberNoRows};
ghost use Rattle.vx_lower.specs.TreePlans.{HasTreeReads, HasTreeRows, HasTreeType, HasTreeValues};

use crate::keeping::Keeping;
use crate::lowered::Lowered;
use crate::lowering_kept::lower_kept;
use crate::lowering_whole::lower_whole;
use std::alloc::{AllocError, Global};
use vx_layout::{Kept, LayoutTree};
use vx_plan::{PlanRef, PlanTable};

/// Lowers the root into a table.
fn lower_root(
    alloc: Global,
    tree: &LayoutTree,
    kept: &Kept,
    table: &mut PlanTable,
) -> Result<PlanRef, AllocError>
    requires kept { IsSomeAnd (slice_get tree.now 0) (λ root. MayKeep (kept_data kept.now) root.dtype) }
    requires can { CanLower tree.now 0 (kept_data kept.now) table.old }
    ensures { IfOk result (λ plan. AddsPlan table.old table.new (lowered (subtree tree.now 0) (kept_data kept.now)) (number_of plan)) }
{
    match kept {
        Kept::All => lower_whole(alloc, tree, 0, None, table),
        Kept::Fields(names) => {
            let keeping = Keeping::of(alloc, tree.dtype(), names)?;
            let plan = lower_kept(alloc, tree, 0, &keeping, table);
            drop(keeping);
            plan
        }
    }
}

/// For how many plans room is made at once: where all fields are kept, two for each node, which is the most that there
/// can be, and nearly as many as there are in a tree of leaves; else for none, since most nodes may not be lowered.
fn room(tree: &LayoutTree, kept: &Kept) -> u32
    ensures { result ≤ 2 * length tree.now }
{
    match kept {
        Kept::All => tree.len().saturating_mul(2),
        Kept::Fields(_) => 0,
    }
}

/// Lowers a tree: its rows without the fields of the root that aren't kept. The plans are numbered by their place,
/// children first, and the root is the last of them. It is refused for want of memory alone.
///
/// Time is linear in the nodes and in the fields of their dtypes, but for a sort of the kept names, and for the
/// binding of the expression that packs the kept fields, which looks each of them up in the root's dtype.
pub fn lower(alloc: Global, tree: &LayoutTree, kept: &Kept) -> Result<Lowered, AllocError>
    requires kept { IsSomeAnd (slice_get tree.now 0) (λ root. MayKeep (kept_data kept.now) root.dtype) }
    ensures plan { IfOk result (λ made. plan_at made.table (number_of made.root) ≡ numbered 0 (lowered (subtree tree.now 0) (kept_data kept.now))) }
    ensures root { IfOk result (λ made. number_of made.root + 1 ≡ length made.table) }
    ensures good { IfOk result (λ made. IsGoodTable made.table) }
    // The table has at most twice as many plans as the tree has nodes.
    ensures small { IfOk result (λ made. length made.table ≤ 2 * length tree.now) }
    // None of them numbers rows.
    ensures unnumbered { IfOk result (λ made. NumberNoRows made.table) }
    // The root has the tree's dtype and values without the fields that aren't kept, its rows, and its reads.
    ensures dtype { IfOk result (λ made. HasTreeType (subtree tree.now 0) (kept_data kept.now) (plan_at made.table (number_of made.root))) }
    ensures rows { IfOk result (λ made. HasTreeRows (subtree tree.now 0) (plan_at made.table (number_of made.root))) }
    ensures values { IfOk result (λ made. HasTreeValues (subtree tree.now 0) (kept_data kept.now) (plan_at made.table (number_of made.root))) }
    ensures reads { IfOk result (λ made. HasTreeReads (subtree tree.now 0) (kept_data kept.now) (plan_at made.table (number_of made.root))) }
{
    tree.keeps_rules();
    let mut table = PlanTable::with_capacity(alloc, room(tree, kept))?;
    let root = lower_root(alloc, tree, kept, &mut table)?;
    Ok(Lowered { table, root })
}
