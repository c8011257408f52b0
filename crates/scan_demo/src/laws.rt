//! The laws of the demo file.

ghost use Rattle.scan_demo.specs.DemoScans.{AnswersAreDemo, LayoutIsGood, PiecesAreDemo};

/// The layout of each demo file keeps the rules of the shape.
pub fn demo_layouts_are_good()
    ensures { LayoutIsGood }
{}

/// A scan of all rows of the demo file for the bare root gives the demo rows, in the pieces that its summary counts.
pub fn scans_give_demo_rows()
    ensures pieces { PiecesAreDemo }
    ensures answers { AnswersAreDemo }
{}
