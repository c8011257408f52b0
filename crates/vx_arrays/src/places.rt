//! Places of rows that are looked up.

ghost use Rattle.std.specs.Prelude.{◌≡◌};
ghost use Rattle.vx_arrays.specs.Places.{place_in};

use crate::kinds::Kind;

/// The place that a whole number is, of so many rows, and the place past the last one for what is none of
/// them.
fn place_of_whole(valid: bool, whole: i128, past: usize) -> usize
    ensures { result ≡ place_in past valid whole }
{
    if valid && 0 <= whole && whole < past as i128 {
        whole as usize
    } else {
        past
    }
}

/// The place that a number of a kind is, of so many rows, and the place past the last one for what is
/// none of them.
pub(crate) fn place_of<T: Kind>(valid: bool, number: T, past: usize) -> usize
    ensures { result ≡ place_in past valid (T.number number) }
{
    place_of_whole(valid, number.to_i128(), past)
}
