//! Readers of a layout: its rows by the nodes of its tree, from segments that are read as they are needed.
//!
//! - Where the rows of a read are split: [`SplitBy`], over what a reader registers, [`RegistersSplits`], of a
//!   [`SplitRange`] in [`RowSplits`]; [`FieldMask`], [`SplitError`].
//! - The reader of a layout, by the kind of its root: [`Reader`], with [`FlatReader`], [`ChunkedReader`], [`DictReader`] and
//!   [`ZonedReader`], each over a [`NodeReader`]; what each of them does: [`LayoutReader`]; which layouts have one: [`check`], [`OpenError`].
//! - The states of evaluations, and what a poll of one gives: [`ColumnState`], [`MaskState`], [`Progress`]; why it gives no answer:
//!   [`ReaderError`].
//! - Zones, by which a mask loses rows before these are read: [`falsify`] with [`ZoneProof`], [`ZoneTable`] with [`ZoneError`].
//!   What a pruning evaluation asks for is the law [`zones_are_reached`].
//! - A bound that running workers tighten: [`BoundTable`], [`Bounded`], [`BoundSeat`]; the zones that it prunes, [`PrunedZones`]
//!   with [`BoundMask`].
//! - A state read to its end: [`read_range`]; all rows of a reader, cut where they are split: [`read_rows`]; [`ReadRowsError`].
#![tactic(auto)]

mod ends;
mod evaluations;
mod filterings;
mod laws;
mod layout_readers;
mod node_readers;
mod progress;
mod prunings;
mod reader_traits;
mod readers;
mod reading;
mod states;
mod stray_structs;
mod uncut_rows;
mod whole_reads;
mod zone_masks;
mod zone_needs;
mod zone_rows;
mod zoned_readers;

pub use laws::zones_are_reached;
pub use layout_readers::{ChunkedReader, DictReader, FlatReader, Reader, ZonedReader};
pub use node_readers::NodeReader;
pub use progress::Progress;
pub use reader_traits::LayoutReader;
pub use readers::{OpenError, check};
pub use reading::{ReadRowsError, read_range};
pub use states::{ColumnState, MaskState};
pub use vx_bound::{BoundMask, BoundSeat, BoundTable, Bounded, PrunedZones};
pub use vx_reads::ReaderError;
pub use vx_split_rules::{FieldMask, RegistersSplits, RowSplits, SplitBy, SplitError, SplitRange};
pub use vx_zones::{ZoneError, ZoneProof, ZoneTable, falsify};
pub use whole_reads::read_rows;
