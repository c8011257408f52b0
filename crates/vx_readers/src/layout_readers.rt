//! Readers of a layout, by the kind of its root.

ghost use Rattle.std.specs.Prelude.{◌≡◌, IfErr, IfOk, OnOk};
ghost use Rattle.vx_layout.specs.Shape.{IsGoodTree};
ghost use Rattle.vx_reads.specs.Readable.{AreReadable};
ghost use Rattle.vx_readers.specs.Opening.{OpenRefused};
ghost use Rattle.vx_readers.specs.Readers.{reader_data, IsRootReader};

use crate::node_readers::NodeReader;
use crate::readers::{OpenError, check};
use vx_base::SegmentLocation;
use vx_layout::{LayoutKind, LayoutTree};

/// The reader of a node that is one segment.
#[derive(Drop)]
pub struct FlatReader<'a> {
    pub(crate) over: NodeReader<'a>,
}

/// The reader of a node that is one child after another.
#[derive(Drop)]
pub struct ChunkedReader<'a> {
    pub(crate) over: NodeReader<'a>,
}

/// The reader of a node of codes, and of the values that they look up.
#[derive(Drop)]
pub struct DictReader<'a> {
    pub(crate) over: NodeReader<'a>,
}

/// The reader of a node of data, and of the zones that tell of its rows.
#[derive(Drop)]
pub struct ZonedReader<'a> {
    pub(crate) over: NodeReader<'a>,
}

/// The reader of a layout's root.
#[derive(Drop)]
pub enum Reader<'a> {
    Flat(FlatReader<'a>),
    Chunked(ChunkedReader<'a>),
    Dict(DictReader<'a>),
    Zoned(ZonedReader<'a>),
}

impl<'a> Reader<'a> {
    /// The reader of the root, unless some node isn't read: the first such node is the error.
    pub fn try_new(
        tree: &'a LayoutTree,
        locations: &'a [SegmentLocation],
    ) -> Result<Reader<'a>, OpenError>
        ensures opened { IfOk result (λ reader. reader_data reader ≡ record { nodes = tree.now; node = 0; locations = locations.now }) }
        ensures kind { IfOk result (IsRootReader tree.now) }
        ensures readable { OnOk result (AreReadable tree.now) }
        ensures good { OnOk result (IsGoodTree tree.now) }
        ensures refused { IfErr result (OpenRefused tree.now) }
    {
        match check(tree) {
            Ok(()) => {}
            Err(error) => return Err(error),
        }
        let root = tree.root();
        let over = NodeReader::new(tree, locations, root);
        match &tree.node(root).kind {
            LayoutKind::Flat { .. } => Ok(Reader::Flat(FlatReader { over })),
            LayoutKind::Chunked => Ok(Reader::Chunked(ChunkedReader { over })),
            LayoutKind::Dict => Ok(Reader::Dict(DictReader { over })),
            LayoutKind::Zoned { .. } => Ok(Reader::Zoned(ZonedReader { over })),
            _ => unreachable!(),
        }
    }
}
