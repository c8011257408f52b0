//! Where rows of a plan stand among the rows of the root.

ghost use Rattle.std.specs.Prelude.{◌≡◌};
ghost use Rattle.vx_plan.specs.Reaches.{fixed, fits, rooted, shifted};

use std::ops::Range;

/// Where rows of a plan stand at the root: behind so many, or in a fixed range, whatever they are.
#[derive(Clone, Drop)]
pub enum Reach {
    Offset(u64),
    Fixed(Range<u64>),
}

/// A segment that is reached, and the range of root rows for which it is.
#[derive(Clone, Drop)]
pub struct SegmentReach {
    pub segment: u32,
    pub rows: Range<u64>,
}

impl Reach {
    /// The range of the root's rows.
    pub fn root(&self, rows: &Range<u64>) -> Range<u64>
        requires start { fits self.now rows.now.start }
        requires end { fits self.now rows.now.end }
        ensures { result ≡ rooted self.now rows.now.start rows.now.end }
    {
        match self {
            Reach::Offset(offset) => rows.start + *offset..rows.end + *offset,
            Reach::Fixed(range) => range.start..range.end,
        }
    }

    /// The same behind so many more rows.
    pub fn shift(&self, by: u64) -> Reach
        requires { fits self.now by }
        ensures { result ≡ shifted self.now by }
    {
        match self {
            Reach::Offset(offset) => Reach::Offset(*offset + by),
            Reach::Fixed(range) => Reach::Fixed(range.start..range.end),
        }
    }

    /// Fixed to the root's rows of this range.
    pub fn fixed(&self, rows: &Range<u64>) -> Reach
        requires start { fits self.now rows.now.start }
        requires end { fits self.now rows.now.end }
        ensures { result ≡ fixed self.now rows.now.start rows.now.end }
    {
        Reach::Fixed(self.root(rows))
    }
}
