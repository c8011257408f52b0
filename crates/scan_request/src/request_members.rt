//! The members of a request, as they are read one after another, and what they tell.

ghost use Rattle.std.specs.Prelude.{◌≡◌, ◌<◌, Some, None, Err, length, IfOk, OnOk, option_map};
ghost use Rattle.serde_json.specs.Data.{Data, Members};
ghost use Rattle.scan_json.specs.Members.{AreRising};
ghost use Rattle.scan_json.specs.Reading.{read_members, read_value};
ghost use Rattle.scan_request.specs.RequestMembers.{parts_by, told_by, told_of, with_member};
ghost use Rattle.scan_request.specs.RequestViews.{parts_said};

use crate::expression_forms::expression_of;
use crate::json_forms::whole_64;
use crate::location_forms::locations_of;
use crate::node_forms::nodes_of;
use crate::request_parts::{RequestParts, file_from, parts_from, projection_from};
use crate::row_forms::{indices_of, range_of, rows_from};
use json::Reader;
use scan_json::{Unread, pass};
use std::alloc::Global;
use std::ops::Range;
use vx_base::SegmentLocation;
use vx_expr::Expr;
use vx_layout::LayoutNode;
use vx_splits::StrictSorted;

/// What the members of a request tell, each where it is there.
pub(crate) struct RequestMembers {
    pub(crate) locations: Option<Option<Vec<SegmentLocation>>>,
    pub(crate) nodes: Option<Option<Vec<LayoutNode>>>,
    pub(crate) projection: Option<Option<Expr>>,
    pub(crate) range: Option<Option<Range<u64>>>,
    pub(crate) indices: Option<Option<StrictSorted>>,
    pub(crate) exclude: Option<Option<StrictSorted>>,
    pub(crate) limit: Option<Option<u64>>,
    pub(crate) row_offset: Option<Option<u64>>,
    /// A member has another name.
    pub(crate) others: bool,
}

impl Drop for RequestMembers {
    fn drop(self) {
        let RequestMembers {
            locations: _,
            nodes: _,
            projection: _,
            range: _,
            indices: _,
            exclude: _,
            limit: _,
            row_offset: _,
            others: _,
        } = self;
    }
}

/// Reads the value of the member of that name.
fn member_told(
    alloc: Global,
    reader: &mut Reader<'_>,
    depth: usize,
    name: &str,
    told: &mut RequestMembers,
) -> Result<(), Unread>
    ensures ok { OnOk result ((d : Data) × (read_value depth reader.old ≡ Some (d, reader.new)) × (told_by told.new ≡ with_member name.now d (told_by told.old))) }
    ensures shorter { OnOk result (length reader.new < length reader.old) }
    ensures refused { result ≡ Err Unread.Invalid → read_value depth reader.old ≡ None }
{
    match name {
        "locations" => {
            told.locations = Some(locations_of(alloc, reader, depth)?);
            Ok(())
        }
        "nodes" => {
            told.nodes = Some(nodes_of(alloc, reader, depth)?);
            Ok(())
        }
        "projection" => {
            told.projection = Some(expression_of(alloc, reader, depth)?);
            Ok(())
        }
        "range" => {
            told.range = Some(range_of(reader, depth)?);
            Ok(())
        }
        "indices" => {
            told.indices = Some(indices_of(alloc, reader, depth)?);
            Ok(())
        }
        "exclude" => {
            told.exclude = Some(indices_of(alloc, reader, depth)?);
            Ok(())
        }
        "limit" => {
            told.limit = Some(whole_64(reader, depth)?);
            Ok(())
        }
        "row_offset" => {
            told.row_offset = Some(whole_64(reader, depth)?);
            Ok(())
        }
        _ => {
            pass(reader, depth)?;
            told.others = true;
            Ok(())
        }
    }
}

/// Reads the members of an object to its end.
pub(crate) fn members_in(
    alloc: Global,
    reader: &mut Reader<'_>,
    depth: usize,
) -> Result<RequestMembers, Unread>
    ensures ok { IfOk result (λ told. (ms : Members) × (read_members depth reader.old ≡ Some (ms, reader.new)) × AreRising ms × (told_by told ≡ told_of ms)) }
    ensures shorter { OnOk result (length reader.new < length reader.old) }
    ensures refused { result ≡ Err Unread.Invalid → read_members depth reader.old ≡ None }
{
    let mut told = RequestMembers {
        locations: None,
        nodes: None,
        projection: None,
        range: None,
        indices: None,
        exclude: None,
        limit: None,
        row_offset: None,
        others: false,
    };
    'members: while let Some(name) = reader.next_key()? {
        member_told(alloc, reader, depth, name, &mut told)?;
    }
    Ok(told)
}

impl RequestMembers {
    /// The parts that the members tell.
    pub(crate) fn into_parts(self) -> Option<RequestParts>
        ensures { option_map parts_said result ≡ parts_by (told_by self) }
    {
        let RequestMembers {
            locations,
            nodes,
            projection,
            range,
            indices,
            exclude,
            limit,
            row_offset,
            others,
        } = self;
        let file = file_from(locations, nodes);
        let rows = rows_from(range, limit, row_offset, indices, exclude);
        let parts = parts_from(file, rows, projection_from(projection));
        if others {
            drop(parts);
            None
        } else {
            parts
        }
    }
}
