// Decompose's first loop, gone on with once it is slow: what pairs give is kept from one Separate to the next. The storage for it, 128 KiB, is this loop's alone.
ghost use Rattle.std.specs.Prelude.{◌≤◌, length};
ghost use Rattle.algebra.specs.Algebra.{algebra_in};
ghost use Rattle.keeping.specs.InnerKeeping.{Keeping};
ghost use Rattle.gathering.specs.InnerGathering.{Gathering, Wanted, Separated, GatheredRight};

use crate::gather::Collected;
use crate::step::{common, meet_next};
use equivalence::map::is_identity;
use extremal::separated_kept_into;
use keeping::{MAP_BYTES, PLACES};
use pairorder::order::first_held;

// The congruence that Separate gives for the first pair of `met` goes to `maps`, from byte `at` on, by what pairs give.
fn separate_next(
    kept: &mut [u8],
    marks: &mut [u8],
    n: usize,
    arities: &[u8],
    cells: &[u8],
    at: usize,
    met: &[u8],
    maps: &mut [u8],
)
    requires keeping { Keeping (algebra_in n arities cells) kept.old marks.old }
    requires wanted { Wanted (algebra_in n arities cells) at met.now maps.old }
    ensures separated { Separated (algebra_in n arities.entry cells.entry) at met.now maps.old maps.new }
    ensures keeping_2 { Keeping (algebra_in n arities.entry cells.entry) kept.new marks.new }
{
    let pair = first_held(n, met);
    separated_kept_into(
        kept,
        marks,
        n,
        arities,
        cells,
        pair.x,
        pair.y,
        &mut maps[at..],
    );
}

// Goes on where `from` congruences are gathered in `maps` and `met` is their meet. `table` is working storage. It is kept apart: else the compiler makes its storage a
// part of its callers', up to a run of the desk program, which want little where nothing is kept.
#[inline(never)]
pub fn gather_kept(
    n: usize,
    arities: &[u8],
    cells: &[u8],
    from: usize,
    table: &mut [u8],
    met: &mut [u8],
    maps: &mut [u8],
) -> Collected
    requires gathering { Gathering (algebra_in n arities cells) maps.old from met.old maps.old }
    requires in_bounds { 4096 ≤ length table.old }
    ensures { GatheredRight (algebra_in n arities.entry cells.entry) result maps.old maps.new }
{
    // Nothing is kept yet.
    let mut kept = [0u8; MAP_BYTES];
    let mut marks = [0u8; PLACES];
    let mut count = from;
    // A `while`: it ends where the meet is the identity, not by the count. The loop of `gather` without its test of slowness: one loop over both Separates, which
    // says besides when to begin to keep, is no plainer.
    while !is_identity(n, met) {
        let at = count * n;
        separate_next(&mut kept, &mut marks, n, arities, cells, at, met, maps);
        if meet_next(n, at, maps, table, met) {
            return common(n, met);
        }
        count += 1;
    }
    Collected::All(count)
}
