// The least congruence that joins two elements, from kept pairs. An element that is no name is taken once, with the name that it then has, and what is kept for the two is
// joined; at the end the images of every element and its name are joined, and the map is a congruence.
ghost use Rattle.std.specs.Prelude.{◌≡◌, ◌<◌, ◌≤◌, length};
ghost use Rattle.equivalence.specs.Equivalence.{byte};
ghost use Rattle.kernel.specs.InnerKernel.{Canonical};
ghost use Rattle.algebra.specs.Algebra.{algebra_in};
ghost use Rattle.algebra.specs.Accepted.{Accepted};
ghost use Rattle.sweep.specs.InnerQueue.{state_of};
ghost use Rattle.keeping.specs.InnerKeeping.{NothingJoined, kept_at, Keeping};
ghost use Rattle.keeping.specs.InnerPrincipal.{FullMap, Trusted, Taking, Taken, Absorbing, Absorbed, Working, Worked, Rebuilding, Rebuilt, Growing, PairGrown, PrincipalHere};

use crate::WHOLE;
use crate::join::join_kept;
use crate::pairs::{fresh, keep_pair, mark_of, store};
use sweep::queue::Merging;

// Where the map `kept` is whole, `sure` is joined with it.
fn trust(sure: &mut [u8; 64], n: usize, kept: &[u8], mark: u8)
    requires full_map { FullMap n (length sure.old) (byte sure.old) }
    requires n_in_bounds { n ≤ length kept.now }
    requires canonical { Canonical n (byte kept.now) }
    ensures { Trusted n mark (length sure.new) (byte kept.now) (byte sure.old) (byte sure.new) }
{
    if mark != WHOLE {
        return;
    }
    let mut merging = Merging {
        map: *sure,
        queue: [0u8; 64],
        len: 0,
    };
    join_kept(&mut merging, n, kept);
    *sure = merging.map;
}

// What is kept for x and y is joined, and with `sure` too where it is whole.
fn take(
    maps: &mut [u8],
    marks: &mut [u8],
    merging: &mut Merging,
    sure: &mut [u8; 64],
    n: usize,
    arities: &[u8],
    cells: &[u8],
    x: usize,
    y: usize,
)
    requires { Taking (algebra_in n arities cells) x y maps.old marks.old (state_of merging.old) (length sure.old) (byte sure.old) }
    ensures { Taken (algebra_in n arities.entry cells.entry) x y (state_of merging.old) (state_of merging.new) (byte sure.old) (length sure.new) (byte sure.new) maps.new marks.new }
{
    let p = keep_pair(maps, marks, n, arities, cells, x, y);
    let at = p * 64;
    trust(sure, n, &maps[at..], marks[p]);
    join_kept(merging, n, &maps[at..]);
}

// Takes the last element of the queue. Where `sure`, a congruence inside the map, joins it with its name, so does the map with all their images; else what is kept for
// the two is joined.
fn absorb(
    maps: &mut [u8],
    marks: &mut [u8],
    merging: &mut Merging,
    sure: &mut [u8; 64],
    n: usize,
    arities: &[u8],
    cells: &[u8],
)
    requires { Absorbing (algebra_in n arities cells) maps.old marks.old (state_of merging.old) (length sure.old) (byte sure.old) }
    ensures { Absorbed (algebra_in n arities.entry cells.entry) (state_of merging.old) (state_of merging.new) maps.new marks.new (length sure.new) (byte sure.new) }
{
    merging.len -= 1;
    let b = merging.queue[merging.len] as usize;
    let a = merging.map[b] as usize;
    if sure[a] == sure[b] {
        return;
    }
    take(maps, marks, merging, sure, n, arities, cells, a, b);
}

// Takes queued elements until none is left or v and w are joined.
fn absorb_all(
    maps: &mut [u8],
    marks: &mut [u8],
    merging: &mut Merging,
    sure: &mut [u8; 64],
    n: usize,
    arities: &[u8],
    cells: &[u8],
    v: usize,
    w: usize,
)
    requires working { Working (algebra_in n arities cells) (byte merging.old.map) maps.old marks.old (state_of merging.old) (length sure.old) (byte sure.old) }
    requires v_lt_n { v < n }
    requires w_lt_n { w < n }
    ensures { Worked (algebra_in n arities.entry cells.entry) v w (byte merging.old.map) maps.new marks.new (length merging.new.map) (byte merging.new.map) merging.new.len (length sure.new) }
{
    // A `while`: the queue grows in it.
    while merging.len > 0 {
        if merging.map[v] == merging.map[w] {
            return;
        }
        absorb(maps, marks, merging, sure, n, arities, cells);
    }
}

// The map becomes the one kept at p, and what is no name in it is queued.
fn rebuild(maps: &[u8], merging: &mut Merging, n: usize, p: usize)
    requires nothing_joined { NothingJoined (state_of merging.old) }
    requires rebuilding { Rebuilding n p maps.now }
    ensures { Rebuilt n (kept_at maps.now p) (state_of merging.new) }
{
    let at = p * 64;
    join_kept(merging, n, &maps[at..]);
}

// The map becomes the one kept for x and y at p, grown until it is a congruence or joins v and w. Nothing is queued then where it is a congruence.
fn close(
    maps: &mut [u8],
    marks: &mut [u8],
    merging: &mut Merging,
    n: usize,
    arities: &[u8],
    cells: &[u8],
    x: usize,
    y: usize,
    p: usize,
    v: usize,
    w: usize,
)
    requires growing { Growing (algebra_in n arities cells) x y p v w maps.old marks.old }
    requires nothing_joined { NothingJoined (state_of merging.old) }
    ensures { PairGrown (algebra_in n arities.entry cells.entry) x y v w maps.new marks.new (length merging.new.map) (byte merging.new.map) merging.new.len }
{
    rebuild(maps, merging, n, p);
    let mut sure = fresh();
    absorb_all(maps, marks, merging, &mut sure, n, arities, cells, v, w);
}

// A map of x and y is kept that is a congruence, or joins v and w: the one at p, grown.
fn grow(
    maps: &mut [u8],
    marks: &mut [u8],
    n: usize,
    arities: &[u8],
    cells: &[u8],
    x: usize,
    y: usize,
    p: usize,
    v: usize,
    w: usize,
)
    requires { Growing (algebra_in n arities cells) x y p v w maps.old marks.old }
    ensures { PrincipalHere (algebra_in n arities.entry cells.entry) x y v w maps.new marks.new p }
{
    let mut grown = Merging {
        map: fresh(),
        queue: [0u8; 64],
        len: 0,
    };
    close(maps, marks, &mut grown, n, arities, cells, x, y, p, v, w);
    store(maps, marks, p, &grown.map, mark_of(grown.len == 0));
}

// At the place of x and y, which is the answer, is then a map that is the least congruence that joins them, or one inside it that joins v and w.
pub fn principal(
    maps: &mut [u8],
    marks: &mut [u8],
    n: usize,
    arities: &[u8],
    cells: &[u8],
    x: usize,
    y: usize,
    v: usize,
    w: usize,
) -> usize
    requires keeping { Keeping (algebra_in n arities cells) maps.old marks.old }
    requires accepted { Accepted (algebra_in n arities cells) }
    requires x_lt_y { x < y }
    requires y_lt_n { y < n }
    requires v_lt_n { v < n }
    requires w_lt_n { w < n }
    ensures { PrincipalHere (algebra_in n arities.entry cells.entry) x y v w maps.new marks.new result }
{
    let p = keep_pair(maps, marks, n, arities, cells, x, y);
    if marks[p] == WHOLE {
        return p;
    }
    let at = p * 64;
    if maps[at + v] == maps[at + w] {
        return p;
    }
    grow(maps, marks, n, arities, cells, x, y, p, v, w);
    p
}
