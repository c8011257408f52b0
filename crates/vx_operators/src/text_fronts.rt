//! Texts that are told apart by their fronts, the numbers that their first 16 bytes spell.

ghost use Rattle.std.specs.Prelude.{◌≡◌, ◌≤◌, length};
ghost use Rattle.std.specs.Cmp.Lexicographic.{slice_cmp};
ghost use Rattle.std.specs.Ordering.{nat_cmp};
ghost use Rattle.vx_arrays.specs.Fronts.{front_number};

use std::cmp::Ordering;

/// How a text stands to another one of the same front: as its length does, where nothing lies behind the fronts.
#[inline(always)]
fn order_level(left: &str, right: &str) -> Ordering
    requires { front_number left.now ≡ front_number right.now }
    ensures { result ≡ slice_cmp nat_cmp left.now right.now }
{
    let here = left.len();
    let there = right.len();
    let longer = here.max(there);
    if longer <= 16 {
        here.cmp(&there)
    } else {
        left.cmp(right)
    }
}

/// How a text stands to another one: as its front does, where these differ. Whether they do is asked first, since which
/// of two is less can't be foretold where the rows are in no order.
#[inline(always)]
pub(crate) fn order_by_front(
    left: &str,
    left_front: u128,
    right: &str,
    right_front: u128,
) -> Ordering
    requires left { left_front ≡ front_number left.now }
    requires right { right_front ≡ front_number right.now }
    ensures { result ≡ slice_cmp nat_cmp left.now right.now }
{
    if left_front == right_front {
        order_level(left, right)
    } else {
        left_front.cmp(&right_front)
    }
}
