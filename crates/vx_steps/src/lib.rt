//! The polled scan of a plan: it asks for segments, takes their bytes in whatever order they come, and gives the
//! columns of the splits of the plan's rows.
#![tactic(auto)]

mod asked;
mod by_hand;
mod childless;
mod computing;
mod counts;
mod errors;
mod handed_leaves;
mod held_segments;
mod hindrances;
mod jobs;
mod kept;
mod later_reads;
mod laws;
mod leaf_columns;
mod leaf_reads;
mod leaf_stores;
mod leaves;
mod leavings;
mod letting_go;
mod needed;
mod needs;
mod number_table;
mod offers;
mod open_needs;
mod open_segments;
mod picking;
mod pieces;
mod placed_reads;
mod places;
mod plan_marks;
mod progress;
mod pruned;
mod reads;
mod scan;
mod segment_runs;
mod splits;
mod still_read;
mod turns;
mod wholes;

pub use asked::asked_wholes;
pub use by_hand::{columns_by_hand, kept_columns_by_hand, reads_by_hand, splits_by_hand};
pub use errors::{DeliverError, StepError};
pub use hindrances::{Hindrance, first_hindrance};
pub use kept::KeptValue;
pub use laws::{
    bad_codes_are_read, causes_are_free, causes_are_read, outermost_takes_are_asked, pieces_join,
    selected_visits_are_reads, splits_are_read, splits_have_their_takes, used_values_serve,
    visits_are_free, visits_are_reads, whole_causes_are_causes,
};
pub use leaf_reads::LeafRead;
pub use leavings::ScanKept;
pub use progress::Turn;
pub use reads::{ReadId, ReadRequest};
pub use scan::Scan;
pub use splits::{ScanBuildError, Split};
