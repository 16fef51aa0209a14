// What each step of gathering ends in: one congruence more is met, or a pair is found.
ghost use Rattle.std.specs.Prelude.{◌≡◌};
ghost use Rattle.pairorder.specs.Order.{first_held};
ghost use Rattle.gathering.specs.InnerGathering.{Unmet, Meetable, Met, pair_found};

use crate::gather::Collected;
use equivalence::Element;
use equivalence::map::is_identity;
use lattice::meets::meet_with;
use pairorder::order::first_held;

// The map from byte `at` of `maps` on is met, unless it is the identity. Whether it is. `table` is working storage.
pub fn meet_next(n: usize, at: usize, maps: &[u8], table: &mut [u8], met: &mut [u8]) -> bool
    requires { Meetable n at maps.now table.old met.old }
    ensures { Met n at maps.now met.old result met.new }
{
    if is_identity(n, &maps[at..]) {
        return true;
    }
    meet_with(n, &maps[at..], table, met);
    false
}

// The first pair of the map `met`.
pub fn common(n: usize, met: &[u8]) -> Collected
    requires { Unmet n met.now }
    ensures { result ≡ pair_found (first_held n met.now) }
{
    let pair = first_held(n, met);
    Collected::Joined(Element(pair.x as u8), Element(pair.y as u8))
}
