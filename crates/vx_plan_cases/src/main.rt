//! Cases of plans: reads a command a line, and prints the line with its answer.
//!
//! A line that is empty or begins with `# ` is printed as it is. The numbers of a command stand first; what else
//! it takes follows behind ` | `. A plan is named by its number in the table.
#![tactic(auto)]

mod asking;
mod commands;
mod making;
mod reaching;
mod words;

use commands::write_answers;
use std::io;

fn main(rt: HostRuntime) -> io::Result<()> {
    let alloc = rt.alloc();
    let lines = io::read_to_string(alloc, rt.reader())?;
    let mut out = String::new(alloc);
    let _all = write_answers(alloc, lines.as_str(), &mut out);
    print!(rt; "{out}")
}
