//! Boundaries of rows, with cuts between those that lie too far apart.

ghost use Rattle.std.specs.Prelude.{◌≡◌, ◌<◌, [], ◌∷◌, ◌++◌, IfOk, IfSome};
ghost use Rattle.std.specs.List.{All, Contains};
ghost use Rattle.vx_base.specs.Masks.{Ascend};
ghost use Rattle.vx_splits.specs.Spans.{cuts_between, cut_count, subdivided, NoGapAbove};

use std::alloc::{AllocError, Global};

/// The greatest span of rows that a split has where nothing else is said.
pub const DEFAULT_MAX_SPLIT_ROWS: u64 = 100_000;

/// The boundaries with cuts between those that lie more than `max_span` rows apart: such a span becomes as
/// many parts as it needs, all alike but the last, which may be smaller. Its memory is taken at once, so that
/// more cuts than memory can hold are refused before any is made; where nothing is cut it takes none.
#[tactic(auto, using(crate::proofs::SpanCuts::first_pushed))]
pub fn subdivide_large_spans(
    alloc: Global,
    boundaries: Vec<u64>,
    max_span: u64,
) -> Result<Vec<u64>, AllocError>
    requires ascending { Ascend boundaries.items }
    requires some { 0 < max_span }
    ensures subdivided { IfOk result (λ cuts. cuts.items ≡ subdivided max_span boundaries.items) }
    ensures kept { IfOk result (λ cuts. All (λ boundary. Contains cuts.items boundary) boundaries.items) }
    ensures ascend { IfOk result (λ cuts. Ascend cuts.items) }
    ensures close { IfOk result (λ cuts. NoGapAbove max_span cuts.items) }
{
    let Some(cut_count) = count_cuts(boundaries.as_slice(), max_span) else {
        return Err(AllocError);
    };
    if cut_count == 0 {
        return Ok(boundaries);
    }
    with_cuts(alloc, boundaries.as_slice(), max_span, cut_count)
}

/// How many cuts the boundaries need. None where that is no number of elements.
fn count_cuts(boundaries: &[u64], max_span: u64) -> Option<u64>
    requires ascending { Ascend boundaries.now }
    requires some { 0 < max_span }
    ensures { IfSome result (λ count. count ≡ cut_count max_span boundaries.now) }
{
    let mut count: u64 = 0;
    for place in 1..boundaries.len() {
        let span = boundaries[place] - boundaries[place - 1];
        let cuts = span.div_ceil(max_span) - 1;
        count = count.checked_add(cuts)?;
    }
    Some(count)
}

/// The boundaries with so many cuts between them.
#[tactic(auto, using(crate::proofs::SpanCuts::first_pushed))]
fn with_cuts(
    alloc: Global,
    boundaries: &[u64],
    max_span: u64,
    cut_count: u64,
) -> Result<Vec<u64>, AllocError>
    requires ascending { Ascend boundaries.now }
    requires some { 0 < max_span }
    ensures { IfOk result (λ cuts. cuts.items ≡ subdivided max_span boundaries.now) }
{
    let Some(len) = boundaries.len().checked_add(cut_count as usize) else {
        return Err(AllocError);
    };
    let mut cuts = Vec::with_capacity(alloc, len)?;
    if boundaries.is_empty() {
        return Ok(cuts);
    }
    cuts.push(boundaries[0])?;
    for place in 1..boundaries.len() {
        push_parts(
            &mut cuts,
            boundaries[place - 1],
            boundaries[place],
            max_span,
        )?;
    }
    Ok(cuts)
}

/// Adds the cuts between two boundaries, and then the second of them.
fn push_parts(cuts: &mut Vec<u64>, start: u64, end: u64, max_span: u64) -> Result<(), AllocError>
    requires forwards { start < end }
    requires some { 0 < max_span }
    ensures { IfOk result (λ _. cuts.new.items ≡ cuts.old.items ++ (cuts_between max_span start end ++ end ∷ [])) }
{
    let span = end - start;
    let parts = span.div_ceil(max_span);
    let step = span.div_ceil(parts);
    for part in 1..parts {
        cuts.push(start + part * step)?;
    }
    cuts.push(end)?;
    Ok(())
}
