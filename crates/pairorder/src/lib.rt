// The order of pairs and of maps: Prefer, and the place of a pair; what other crates use of the order is in `order`.
#![tactic(auto)]

ghost use Rattle.std.specs.Prelude.{◌≡◌};
ghost use Rattle.pairorder.specs.Calls.{Preferred};
ghost use Rattle.pairorder.specs.Order.{place_of};

use equivalence::checks;

pub mod order;

// The earlier of a and b, a if they are equal: the caller's own slice. Where either is no map over n, the empty part at the start of a.
pub fn prefer<'a>(n: usize, a: &'a [u8], b: &'a [u8]) -> &'a [u8]
    ensures { Preferred n a.entry b.entry result }
{
    if checks::maps_check(n, a, b).is_err() {
        return &a[..0];
    }
    if order::is_not_later(n, a, b) { a } else { b }
}

// The place of the pair (x, y) among the pairs of 64 elements, whatever n is; none unless x < y < 64.
pub fn pair_place(x: u8, y: u8) -> Option<usize>
    ensures { result ≡ place_of x y }
{
    if x < y && (y as usize) < checks::MAX_SIZE {
        return Some(order::place(x as usize, y as usize));
    }
    None
}
