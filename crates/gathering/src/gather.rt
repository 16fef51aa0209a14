// Decompose's first loop: congruences that meet in the identity, one after the other in working storage.
ghost use Rattle.std.specs.Prelude.{◌≤◌, length};
ghost use Rattle.algebra.specs.Algebra.{algebra_in};
ghost use Rattle.algebra.specs.Accepted.{Accepted};
ghost use Rattle.theory.specs.Decompose.{most_factor_space};
ghost use Rattle.gathering.specs.InnerGathering.{Wanted, Separated, GatheredRight};

use crate::gather_kept::gather_kept;
use crate::pace::{few_trials, is_slow};
use crate::step::{common, meet_next};
use equivalence::Element;
use equivalence::map::is_identity;
use extremal::separated_into;
use maplist::whole_into;
use pairorder::order::first_held;

// What gathering found: so many congruences, none of them the identity, that meet in it; or a pair that all but the identity join.
// No Result: both are answers, and neither is a failure.
#[derive(Clone, Copy)]
pub enum Collected {
    All(usize),
    Joined(Element, Element),
}

// The congruence that Separate gives for the first pair of `met` goes to `maps`, from byte `at` on. How many pairs were tried in vain.
fn separate_next(
    n: usize,
    arities: &[u8],
    cells: &[u8],
    at: usize,
    met: &[u8],
    maps: &mut [u8],
) -> usize
    requires { Wanted (algebra_in n arities cells) at met.now maps.old }
    ensures separated { Separated (algebra_in n arities.entry cells.entry) at met.now maps.old maps.new }
    ensures upper_bound { result ≤ 4096 }
{
    let pair = first_held(n, met);
    separated_into(n, arities, cells, pair.x, pair.y, &mut maps[at..])
}

// Gathers until the meet is the identity, in stretches of `maps`, or until Separate gives the identity. Where Separate is slow, what pairs give is kept from then on.
// `table` and `met` are working storage.
pub fn gather(
    n: usize,
    arities: &[u8],
    cells: &[u8],
    table: &mut [u8],
    met: &mut [u8],
    maps: &mut [u8],
) -> Collected
    requires accepted { Accepted (algebra_in n arities cells) }
    requires le_n { 2 ≤ n }
    requires in_bounds { 4096 ≤ length table.old }
    requires n_in_bounds { n ≤ length met.old }
    requires n_in_bounds_2 { most_factor_space n ≤ length maps.old }
    ensures { GatheredRight (algebra_in n arities.entry cells.entry) result maps.old maps.new }
{
    let few = few_trials(n, arities);
    whole_into(n, met);
    let mut count = 0;
    let mut trials = 0;
    // A `while`: it ends where the meet is the identity, not by the count.
    while !is_identity(n, met) {
        if is_slow(n, few, count, trials, met) {
            return gather_kept(n, arities, cells, count, table, met, maps);
        }
        let at = count * n;
        trials += separate_next(n, arities, cells, at, met, maps);
        if meet_next(n, at, maps, table, met) {
            return common(n, met);
        }
        count += 1;
    }
    Collected::All(count)
}
