//! What is found once of an expression over its root's dtype, and read again at each evaluation: the places
//! of fields and the kinds of numbers.

ghost use Rattle.std.specs.Prelude.{◌≡◌, ℕ, List, ◌∷◌, Option, Some};
ghost use Rattle.vx_base.specs.declared.dtypes.IntKind.{IntKind};
ghost use Rattle.vx_expr.specs.declared.found.Found.{Found};
ghost use Rattle.vx_expr.specs.Finds.{coming};

use vx_base::IntKind;

/// What is found of a part of an expression.
#[derive(Clone, Copy)]
pub(crate) enum Found {
    /// The place of a field in its struct.
    Place(Option<usize>),
    /// The kind of two numbers that are joined.
    Kind(Option<IntKind>),
}

/// What was found of an expression, read part by part.
#[derive(Drop)]
pub(crate) struct Finds<'a> {
    found: &'a [Found],
    next: usize,
}

impl<'a> Finds<'a> {
    /// All that was found, to be read from its start.
    pub(crate) fn new(found: &'a [Found]) -> Finds<'a>
        ensures { coming result ≡ found.now }
    {
        Finds { found, next: 0 }
    }

    /// What comes next. None at the end.
    fn next(&mut self) -> Option<Found>
        ensures { (one : Found) (rest : List Found) → coming self.old ≡ one ∷ rest → (result ≡ Some one) × (coming self.new ≡ rest) }
    {
        if self.next < self.found.len() {
            let found = self.found[self.next];
            self.next += 1;
            Some(found)
        } else {
            None
        }
    }

    /// The place that comes next.
    pub(crate) fn place(&mut self) -> Option<usize>
        ensures { (place : Option ℕ) (rest : List Found) → coming self.old ≡ Found.Place place ∷ rest → (result ≡ place) × (coming self.new ≡ rest) }
    {
        match self.next() {
            Some(Found::Place(place)) => place,
            _ => None,
        }
    }

    /// The kind that comes next.
    pub(crate) fn kind(&mut self) -> Option<IntKind>
        ensures { (kind : Option IntKind) (rest : List Found) → coming self.old ≡ Found.Kind kind ∷ rest → (result ≡ kind) × (coming self.new ≡ rest) }
    {
        match self.next() {
            Some(Found::Kind(kind)) => kind,
            _ => None,
        }
    }
}
