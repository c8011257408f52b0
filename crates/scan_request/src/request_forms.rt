//! The form of a request: a JSON object with exactly the members of docs/FORMATS.md, whose nodes are a layout, and whose
//! projection is bound to the dtype of the layout's root.

ghost use Rattle.std.specs.Prelude.{◌≡◌, ◌<◌, ◌≤◌, Some, None, Err, IfOk, IfErr, length, option_map};
ghost use Rattle.vx_layout.specs.Shape.{node_limit};
ghost use Rattle.scan_request.specs.JsonForms.{most_items};
ghost use Rattle.scan_request.specs.RequestForms.{said_in, requested, IsRequest, RefusedBy};
ghost use Rattle.scan_request.specs.RequestViews.{asked_of, parts_said};

use crate::request_errors::RequestError;
use crate::request_members::members_in;
use crate::request_parts::{FileParts, RequestParts};
use json::{Reader, Scratch};
use scan_json::{Unread, object_begins};
use simdutf8::compat::from_utf8;
use std::alloc::Global;
use std::ops::Range;
use vx_expr::{BoundExpression, bind};
use vx_layout::{LayoutTree, ScanFile};
use vx_splits::Selection;

/// Lists and objects of a request nest at most so deep.
const MOST_LEVELS: usize = 127;

/// What a request asks for.
#[derive(Drop)]
pub struct Request {
    /// The layout, and where each segment lies.
    pub file: ScanFile,
    /// What is computed of a row, bound to the dtype of the layout's root.
    pub projection: BoundExpression,
    /// The rows that are asked for, where not all are. The end may be the lower one.
    pub range: Option<Range<u64>>,
    /// Which of those rows are read.
    pub selection: Selection,
    /// How many of the selected rows are read, the first ones, where not all are.
    pub limit: Option<u64>,
    /// The number of the file's first row.
    pub row_offset: u64,
}

/// The request that these bytes are. Refused is, in this order: what is no JSON in the form; nodes that are no layout
/// tree; a projection that can't be bound to the root's dtype.
pub fn request_of(alloc: Global, bytes: &[u8]) -> Result<Request, RequestError>
    ensures request { IfOk result (λ request. IsRequest bytes.now (asked_of request)) }
    ensures few { IfOk result (λ request. length request.file.locations.items ≤ most_items) }
    ensures refused { IfErr result (RefusedBy bytes.now) }
{
    let parts = parts_of(alloc, bytes)?;
    let RequestParts {
        file: FileParts { locations, nodes },
        projection,
        rows,
    } = parts;
    let layout = match LayoutTree::try_new(alloc, nodes) {
        Ok(layout) => layout,
        Err(error) => {
            drop(projection);
            drop(rows);
            return Err(RequestError::from(error));
        }
    };
    let bound = bind(alloc, &projection, layout.dtype());
    drop(projection);
    match bound {
        Ok(projection) => Ok(Request {
            file: ScanFile { layout, locations },
            projection,
            range: rows.range,
            selection: rows.selection,
            limit: rows.limit,
            row_offset: rows.row_offset,
        }),
        Err(error) => {
            drop(layout);
            drop(rows);
            Err(RequestError::from(error))
        }
    }
}

/// The parts of the request that these bytes are, by their form alone.
fn parts_of(alloc: Global, bytes: &[u8]) -> Result<RequestParts, RequestError>
    ensures parts { IfOk result (λ parts. requested bytes.now ≡ Some (parts_said parts)) }
    ensures few { IfOk result (λ parts. length parts.file.locations.items ≤ most_items) }
    ensures few_nodes { IfOk result (λ parts. length parts.file.nodes.items < node_limit) }
    ensures refused { IfErr result (RefusedBy bytes.now) }
{
    let Ok(text) = from_utf8(bytes) else {
        return Err(RequestError::BadRequest);
    };
    match parts_read(alloc, text) {
        Ok(Some(parts)) => Ok(parts),
        Ok(None) => Err(RequestError::BadRequest),
        Err(Unread::Invalid) => Err(RequestError::BadRequest),
        Err(Unread::Memory) => Err(RequestError::Memory),
    }
}

/// The parts of the request that this text is.
fn parts_read(alloc: Global, text: &str) -> Result<Option<RequestParts>, Unread>
    ensures ok { IfOk result (λ parts. option_map parts_said parts ≡ said_in text.now) }
    ensures refused { result ≡ Err Unread.Invalid → said_in text.now ≡ None }
{
    let mut scratch = Scratch::new(alloc);
    let mut reader = Reader::new(text, &mut scratch)?;
    if !object_begins(&mut reader, MOST_LEVELS)? {
        return Ok(None);
    }
    let told = members_in(alloc, &mut reader, MOST_LEVELS - 1)?;
    match reader.next() {
        Some(_) => {
            drop(told);
            Ok(None)
        }
        None => Ok(told.into_parts()),
    }
}
