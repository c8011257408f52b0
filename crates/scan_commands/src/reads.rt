//! The rows that a request asks for, read by the layout's readers.

ghost use Rattle.std.specs.Prelude.{◌≡◌, ◌<◌, length};
ghost use Rattle.vx_expr.specs.Bound.{IsBoundTo};
ghost use Rattle.vx_layout.specs.Trees.{head_of, subtree};
ghost use Rattle.vx_split_rules.specs.Rules.{IsZeroSize};
ghost use Rattle.scan_request.specs.RequestViews.{asked_of};
ghost use Rattle.scan_commands.specs.ReadRequests.{is_plain, selects_all};
ghost use Rattle.scan_commands.specs.Reads.{RowsGive};

use crate::endings::{Ending, of_read};
use scan_request::Request;
use std::alloc::Global;
use vx_base::{Column, SegmentSource};
use vx_readers::{Reader, read_rows};
use vx_split_rules::SplitBy;
use vx_splits::Selection;

/// Whether neither rows to read nor rows to leave out are told by their numbers.
fn selects_all(selection: &Selection) -> bool
    ensures { result ≡ selects_all selection.now }
{
    match selection {
        Selection::All => true,
        Selection::IncludeByIndex(_) => false,
        Selection::ExcludeByIndex(_) => false,
    }
}

/// Whether the request asks for all rows, and for none of their numbers.
fn is_plain(request: &Request) -> bool
    ensures { result ≡ is_plain (asked_of request.now) }
{
    request.range.is_none()
        && selects_all(&request.selection)
        && request.limit.is_none()
        && request.row_offset == 0
        && !request.projection.uses_row_idx()
}

/// The columns of a request's rows, or how the run ends without them.
fn rows_of<S: SegmentSource>(
    alloc: Global,
    request: &Request,
    split: &SplitBy,
    idle_limit: u64,
    source: &mut S,
) -> Result<Vec<Column>, Ending>
    requires limit { 0 < idle_limit }
    requires sized { IsZeroSize split.now → ⊥ }
    requires some { 0 < length (asked_of request.now).nodes }
    requires bound { IsBoundTo (asked_of request.now).projection (head_of (subtree (asked_of request.now).nodes 0)).dtype }
    ensures { RowsGive idle_limit (asked_of request.now) result (S.state source.old) (S.state source.new) }
{
    if !is_plain(request) {
        return Err(Ending::NotReadable);
    }
    match Reader::try_new(&request.file.layout, &request.file.locations) {
        Ok(reader) => match read_rows(
            alloc,
            &reader,
            split,
            &request.projection,
            source,
            idle_limit,
        ) {
            Ok(columns) => Ok(columns),
            Err(error) => Err(of_read(error)),
        },
        Err(_) => Err(Ending::NotReadable),
    }
}

/// The rows of a request that the layout's readers answer, read from the source: a column for each split, in the order of
/// the rows. A source may answer as often as the idle limit that a read goes on. The request is let go here.
pub(crate) fn columns_of<S: SegmentSource>(
    alloc: Global,
    request: Request,
    split: &SplitBy,
    idle_limit: u64,
    source: &mut S,
) -> Result<Vec<Column>, Ending>
    requires limit { 0 < idle_limit }
    requires sized { IsZeroSize split.now → ⊥ }
    requires some { 0 < length (asked_of request).nodes }
    requires bound { IsBoundTo (asked_of request).projection (head_of (subtree (asked_of request).nodes 0)).dtype }
    ensures { RowsGive idle_limit (asked_of request) result (S.state source.old) (S.state source.new) }
{
    let columns = rows_of(alloc, &request, split, idle_limit, source);
    drop(request);
    columns
}
