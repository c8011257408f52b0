//! Cases of selections, chunks and split rules: reads a call a line, and prints the line with its answer.
//!
//! A line that is empty or begins with `# ` is printed as it is. A call is its name and its arguments between
//! blanks. `README.md` says how arguments and answers are written.
#![tactic(auto)]

mod calls;
mod first_rows;
mod words;

use calls::write_answers;
use std::io;

fn main(rt: HostRuntime) -> io::Result<()> {
    let alloc = rt.alloc();
    let lines = io::read_to_string(alloc, rt.reader())?;
    let mut out = String::new(alloc);
    let _all = write_answers(alloc, lines.as_str(), &mut out);
    print!(rt; "{out}")
}
