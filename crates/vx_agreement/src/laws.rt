//! The law that two ways to a file's rows agree. It is the contract of a function that does nothing but to cite another law.

ghost use Rattle.vx_agreement.specs.Agreement.{PlannerAndReadersAgree};

use vx_scan::pieces_are_the_answer;

/// Over one file, what `read_rows` gives and what a scan of all rows gives are the same values: those of the answer.
pub fn planner_and_readers_agree()
    ensures { PlannerAndReadersAgree }
{
    pieces_are_the_answer();
}
