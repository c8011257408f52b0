//! The law that a scan and the layout's readers give the same rows: [`planner_and_readers_agree`].
#![tactic(auto)]

mod laws;

pub use laws::planner_and_readers_agree;
