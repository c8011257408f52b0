//! Cases of dtypes, columns, masks, segments, sources and streams: reads a command a line, and prints the line with its answer.
//!
//! A line that is empty or begins with `# ` is printed as it is. The commands stand in `README.md`.
#![tactic(auto)]

mod big;
mod built;
mod case_states;
mod codings;
mod column_calls;
mod commands;
mod dtype_calls;
mod errors;
mod fields;
mod mask_calls;
mod row_reads;
mod segments;
mod sources;
mod streams;

use commands::write_answers;
use std::io;

fn main(rt: HostRuntime) -> io::Result<()> {
    let alloc = rt.alloc();
    let lines = io::read_to_string(alloc, rt.reader())?;
    let mut out = String::new(alloc);
    let _all = write_answers(alloc, lines.as_str(), &mut out);
    print!(rt; "{out}")
}
