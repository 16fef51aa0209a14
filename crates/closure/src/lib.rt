// The least congruence of an accepted algebra above a map and some pairs.
//
// A merge takes one name away, and the queue holds the names taken away. Each queued element is taken once, with the name that its block
// then has, through every translation whose other arguments are still in use; after that it is in use no more itself.
#![tactic(auto)]

ghost use Rattle.std.specs.Prelude.{◌≡◌, ℕ, ◌+◌, ◌<◌, ◌≤◌, length};
ghost use Rattle.equivalence.specs.Equivalence.{byte};
ghost use Rattle.kernel.specs.InnerKernel.{Canonical, KeptPast, names};
ghost use Rattle.algebra.specs.Algebra.{algebra_in};
ghost use Rattle.algebra.specs.Accepted.{Accepted};
ghost use Rattle.translation.specs.InnerTranslations.{Compatible, Closed};
ghost use Rattle.sweep.specs.InnerQueue.{Padded};
ghost use Rattle.closure.specs.InnerStarts.{JoinsPairs, Extends, RefusedRightlyAbove};
ghost use Rattle.closure.specs.InnerClosing.{NamesInUse, ApartIn};

use crate::rounds::Live;
use crate::start::fresh;
use sweep::Stop;
use sweep::queue::Merging;

pub mod rounds;
pub mod start;

// A congruence: its map, of which the bytes past n name themselves, and its names, listed.
#[derive(Clone, Copy)]
pub struct Congruence {
    pub map: [u8; 64],
    pub names: Live,
}

// The first n bytes of m become the least congruence that joins the pairs of a flat list. How many merges made it.
pub fn close_pairs(m: &mut [u8], n: usize, arities: &[u8], cells: &[u8], pairs: &[u8]) -> usize
    requires accepted { Accepted (algebra_in n arities cells) }
    requires n_in_bounds { n ≤ length m.old }
    requires by_index { (i : ℕ) → i < length pairs.now → byte pairs.now i < n }
    ensures closed { Closed (algebra_in n arities.entry cells.entry) (JoinsPairs pairs.now) (byte m.new) }
    ensures m_after { result + names n (byte m.new) ≡ n }
    ensures kept_past { KeptPast n (byte m.old) (byte m.new) }
{
    let mut merging = Merging {
        map: fresh(),
        queue: [0u8; 64],
        len: 0,
    };
    let mut live = Live {
        list: fresh(),
        places: fresh(),
        count: n,
    };
    start::seed(&mut merging, n, pairs);
    let stop = Stop {
        limit: n - 1,
        v: 0,
        w: 0,
    };
    rounds::close(&mut merging, &mut live, n, arities, cells, &[], stop);
    equivalence::blocks::copy(n, &merging.map, m);
    merging.len
}

// `close_with` on a map of 64 bytes.
fn close_with_in(
    m: &mut [u8; 64],
    n: usize,
    arities: &[u8],
    cells: &[u8],
    x: usize,
    y: usize,
) -> usize
    requires accepted { Accepted (algebra_in n arities cells) }
    requires padded { Padded n (byte m.old) }
    requires canonical { Canonical n (byte m.old) }
    requires x_lt_n { x < n }
    requires y_lt_n { y < n }
    ensures closed { Closed (algebra_in n arities.entry cells.entry) (Extends n (byte m.old) x y) (byte m.new) }
    ensures m_after { result + names n (byte m.new) ≡ names n (byte m.old) }
{
    let mut queue = [0u8; 64];
    let old = start::others(m, n, &mut queue);
    let mut merging = Merging {
        map: *m,
        queue,
        len: old,
    };
    merging.merge(n, x as u8, y as u8);
    let mut live = Live {
        list: fresh(),
        places: fresh(),
        count: n,
    };
    let stop = Stop {
        limit: n - 1,
        v: 0,
        w: 0,
    };
    rounds::close(&mut merging, &mut live, n, arities, cells, &[], stop);
    *m = merging.map;
    merging.len - old
}

// The map m becomes the least congruence that joins what m joins, and x and y. How many blocks that cost.
pub fn close_with(m: &mut [u8], n: usize, arities: &[u8], cells: &[u8], x: usize, y: usize) -> usize
    requires accepted { Accepted (algebra_in n arities cells) }
    requires n_in_bounds { n ≤ length m.old }
    requires canonical { Canonical n (byte m.old) }
    requires x_lt_n { x < n }
    requires y_lt_n { y < n }
    ensures closed { Closed (algebra_in n arities.entry cells.entry) (Extends n (byte m.old) x y) (byte m.new) }
    ensures m_after { result + names n (byte m.new) ≡ names n (byte m.old) }
    ensures kept_past { KeptPast n (byte m.old) (byte m.new) }
{
    let mut map = [0u8; 64];
    equivalence::blocks::identity(64, &mut map);
    equivalence::blocks::copy(n, m, &mut map);
    let lost = close_with_in(&mut map, n, arities, cells, x, y);
    equivalence::blocks::copy(n, &map, m);
    lost
}

// As `close_with`, for a congruence that holds v and w apart, if they are two: only the new pair is queued, and only names are in use. Whether v and w stay apart. Where
// that would join them, the congruence stays as it was, and the work stops. It stops as well where a pair would be joined that is marked in the table of refused pairs:
// whatever joins such a pair joins v and w.
pub fn close_apart(
    standing: &mut Congruence,
    n: usize,
    arities: &[u8],
    cells: &[u8],
    x: usize,
    y: usize,
    refused: &[u8],
    v: usize,
    w: usize,
) -> bool
    requires accepted { Accepted (algebra_in n arities cells) }
    requires padded { Padded n (byte standing.old.map) }
    requires canonical { Canonical n (byte standing.old.map) }
    requires compatible { Compatible (algebra_in n arities cells) (byte standing.old.map) }
    requires names_in_use { NamesInUse n (byte standing.old.map) standing.old.names.list standing.old.names.places standing.old.names.count }
    requires x_lt_n { x < n }
    requires y_lt_n { y < n }
    requires v_lt_n { v < n }
    requires w_lt_n { w < n }
    requires refused_rightly_above { RefusedRightlyAbove (algebra_in n arities cells) refused.now v w (byte standing.old.map) }
    ensures { ApartIn (algebra_in n arities.entry cells.entry) x y v w standing.old standing.new result }
{
    let mut merging = Merging {
        map: standing.map,
        queue: [0u8; 64],
        len: 0,
    };
    merging.merge(n, x as u8, y as u8);
    let stop = Stop {
        limit: standing.names.count - 1,
        v,
        w,
    };
    let names = standing.names;
    rounds::close(
        &mut merging,
        &mut standing.names,
        n,
        arities,
        cells,
        refused,
        stop,
    );
    if merging.map[v] == merging.map[w] {
        standing.names = names;
        return false;
    }
    standing.map = merging.map;
    true
}
