//! Layout trees: which segments of a file hold which rows, checked once and then relied on.
//!
//! - Nodes and their kinds: [`LayoutNode`], [`LayoutKind`].
//! - Checked trees: [`LayoutTree`] with [`LayoutError`], by the rules of [`ShapeRule`]; which fields of its root an
//!   expression gets: [`Kept`], [`kept_flags`].
//! - A file that can be scanned: [`ScanFile`], a checked tree and where its segments lie.
//! - The segments of a tree, written anew in other codings: [`migrate`], which gives [`Migrated`] or a [`MigrateError`];
//!   what it asks of its caller: [`flat_nodes`], [`has_counted_rows`].
//! - The laws of the shape: [`faults_are_one`], [`good_trees_unfold`], [`limits_are_promised`].
//! - The laws of values: [`values_are_those_of_the_rows`], [`nodes_have_their_childrens_values`], [`values_fit`].
//! - The laws of reads: [`chunks_have_rows`], [`children_are_read`], [`children_are_reached`],
//!   [`ways_tell_the_dictionary`], [`reads_decide_values`].
//! - Definitions on trees that were written by hand: [`trees_by_hand`], [`structs_by_hand`],
//!   [`dictionaries_by_hand`], [`zones_by_hand`], [`kept_by_hand`].
#![tactic(auto)]

mod by_hand;
mod children;
mod counts;
mod depths;
mod dtypes;
mod errors;
mod facts;
mod files;
mod flat_kinds;
mod kept_fields;
mod laws;
mod limits;
mod migrate_errors;
mod migrations;
mod moved_segments;
mod nodes;
mod number_rules;
mod row_rules;
mod rules;
mod shape;
mod trees;
mod type_rules;

pub use by_hand::{
    dictionaries_by_hand, kept_by_hand, structs_by_hand, trees_by_hand, zones_by_hand,
};
pub use errors::LayoutError;
pub use files::ScanFile;
pub use flat_kinds::{flat_nodes, has_counted_rows};
pub use kept_fields::{Kept, kept_flags};
pub use laws::{
    children_are_reached, children_are_read, chunks_have_rows, faults_are_one, good_trees_unfold,
    nodes_have_their_childrens_values, reads_decide_values, values_are_those_of_the_rows,
    values_fit, ways_tell_the_dictionary,
};
pub use limits::limits_are_promised;
pub use migrate_errors::MigrateError;
pub use migrations::{Migrated, migrate};
pub use nodes::{LayoutKind, LayoutNode};
pub use rules::ShapeRule;
pub use trees::LayoutTree;
