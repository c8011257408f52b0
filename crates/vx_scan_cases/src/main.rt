//! Cases of scans of files: reads a command a line, and prints the line with its answer.
//!
//! A line that is empty or begins with `# ` is printed as it is. The commands stand in `README.md`.
//! A value that was lent is let go by `drop`, so that the proof takes it apart there alone.
#![tactic(auto)]

mod adaptors;
mod answers;
mod builders;
mod caches;
mod chunks;
mod commands;
mod files;
mod runs;
mod scans;
mod shares;
mod splits;
mod trees;
mod values;
mod workers;

use commands::write_lines;
use std::io;

fn main(rt: HostRuntime) -> io::Result<()> {
    let alloc = rt.alloc();
    let lines = io::read_to_string(alloc, rt.reader())?;
    let mut out = String::new(alloc);
    let _all = write_lines(&rt, lines.as_str(), &mut out);
    print!(rt; "{out}")
}
