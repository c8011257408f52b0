//! Readers of the nodes inside a tree, each by itself, and of a file that isn't there.

ghost use Rattle.std.specs.Prelude.{◌≡◌, length, IsTrue};
ghost use Rattle.vx_base.specs.ColumnCalls.{IsBool};
ghost use Rattle.vx_base.specs.Views.{data_type};
ghost use Rattle.vx_expr.specs.Bound.{IsBoundTo};
ghost use Rattle.vx_readers.specs.ReaderData.{reader_head};

use std::process::Abort;
use vx_base::{
    Cell, Column, DType, FileSource, Mask, MemorySource, SegmentLocation, SegmentSource,
};
use vx_expr::BoundExpression;
use vx_layout::LayoutTree;
use vx_readers::{
    NodeReader, Progress, ReadRowsError, ReaderError, RowSplits, SplitRange, check, read_range,
};
use vx_tree_notation::tree_of;

/// Three rows of one value, before three of a dictionary whose codes are two leaves.
const NODES: &str =
    "chunked 6 1,2 bool; flat:0:constant 3 - bool; dict 3 3,4 bool; flat:1 2 - bool; chunked 3 5,6 u8; flat:2 1 - u8; flat:3 2 - u8";

fn tree(rt: &(impl AllocGlobal + Abort)) -> LayoutTree {
    match tree_of(rt.alloc(), NODES) {
        Some(tree) => tree,
        None => panic!(rt; "no tree"),
    }
}

fn at(offset: u64, length: u32) -> SegmentLocation {
    SegmentLocation {
        offset,
        length,
        alignment: 1,
    }
}

fn locations(rt: &(impl AllocGlobal + Abort)) -> Vec<SegmentLocation> {
    vec![in rt.alloc(); at(0, 1), at(1, 1), at(2, 1), at(3, 2)].expect(rt, "locations")
}

/// The one value is true; the dictionary's are false and true, and its codes 1, 0 and 1.
fn source(rt: &(impl AllocGlobal + Abort)) -> MemorySource {
    let file = vec![in rt.alloc(); 1, 2, 1, 0, 1].expect(rt, "a file");
    MemorySource::new(rt.alloc(), file)
}

/// The reader of the dictionary.
fn dictionary<'a>(
    rt: &impl Abort,
    tree: &'a LayoutTree,
    locations: &'a [SegmentLocation],
) -> NodeReader<'a> {
    match check(tree) {
        Ok(()) => {}
        Err(_) => panic!(rt; "a node that isn't read"),
    }
    assert!(rt; 2 < tree.len());
    NodeReader::new(tree, locations, 2)
}

fn root(rt: &(impl AllocGlobal + Abort), reader: &NodeReader<'_>) -> BoundExpression
    ensures { IsBoundTo result (reader_head reader.now).dtype }
{
    let dtype = reader.dtype().copy(rt.alloc()).expect(rt, "a dtype");
    BoundExpression::new_root(rt.alloc(), dtype).expect(rt, "the root")
}

/// All rows of the node, each of them selected.
fn all(rt: &(impl AllocGlobal + Abort), rows: u64) -> Mask
    ensures { length result ≡ rows }
{
    Mask::new_true(rt.alloc(), rows).expect(rt, "a mask")
}

/// Projects all rows of the dictionary.
fn projected<S: SegmentSource>(
    rt: &(impl AllocGlobal + Abort),
    source: &mut S,
) -> Result<Column, ReadRowsError> {
    let (tree, locations) = (tree(rt), locations(rt));
    let reader = dictionary(rt, &tree, &locations);
    let root = root(rt, &reader);
    let rows = reader.row_count();
    let mask = all(rt, rows);
    let state = reader
        .projection(rt.alloc(), 0..rows, &root, mask)
        .expect(rt, "a state");
    read_range(state, source, 1)
}

fn is_bool(dtype: &DType) -> bool
    ensures { IsTrue result → IsBool (data_type dtype.now) }
{
    matches!(dtype, DType::Bool(_))
}

fn is_true(column: &Column, row: u64) -> bool {
    row < column.len() && matches!(column.cell(row), Cell::Bool(true))
}

#[test]
fn projects_a_node_inside(rt: HostRuntime) {
    let mut source = source(&rt);
    let column = projected(&rt, &mut source).expect(&rt, "a column");
    assert!(rt; column.len() == 3);
    assert!(rt; is_true(&column, 0) && !is_true(&column, 1) && is_true(&column, 2));
    assert!(rt; source.asked().len() == 3);
}

#[test]
fn filters_a_node_inside(rt: HostRuntime) {
    let (tree, locations) = (tree(&rt), locations(&rt));
    let reader = dictionary(&rt, &tree, &locations);
    let root = root(&rt, &reader);
    assert!(rt; reader.row_count() == 3);
    assert!(rt; is_bool(root.dtype()));
    let state = reader
        .filter(rt.alloc(), 1..3, &root, all(&rt, 2))
        .expect(&rt, "a state");
    match state.poll(&mut source(&rt)) {
        Ok(Progress::Ready(kept)) => {
            assert!(rt; kept.len() == 2 && !kept.value(0) && kept.value(1));
        }
        _ => panic!(rt; "no mask"),
    }
}

#[test]
fn splits_a_node_inside(rt: HostRuntime) {
    let (tree, locations) = (tree(&rt), locations(&rt));
    let reader = dictionary(&rt, &tree, &locations);
    let range = SplitRange::try_new(3, 0..3).expect(&rt, "a range");
    let mut splits = RowSplits::new(rt.alloc());
    reader
        .register(&range, true, &mut splits)
        .expect(&rt, "splits");
    let rows = splits.into_sorted_deduped().expect(&rt, "rows");
    assert!(rt; rows.as_slice() == [4, 6].as_slice());
}

/// A file that tells nothing, and whose every request fails.
#[test]
fn reads_no_file(rt: HostRuntime) {
    let mut source = FileSource::new(&rt, rt.alloc(), None).expect(&rt, "memory");
    let failed = projected(&rt, &mut source);
    assert!(rt; matches!(failed, Err(ReadRowsError::Reader(ReaderError::ReadFault))));
    assert!(rt; source.faults() == 1);
}
