// The map of one pair: made by a pass, written to its place.
ghost use Rattle.std.specs.Prelude.{◌≡◌, ◌<◌, ◌≤◌, length};
ghost use Rattle.equivalence.specs.Equivalence.{byte};
ghost use Rattle.algebra.specs.Algebra.{algebra_in};
ghost use Rattle.algebra.specs.Accepted.{Accepted};
ghost use Rattle.sweep.specs.InnerQueue.{state_of};
ghost use Rattle.keeping.specs.InnerKeeping.{Fresh, NothingJoined, PassStarted, PairMade, Keeping, mark_of, PlaceOf, Stored, KeptHere};

use crate::{KEPT, NOTHING, WHOLE};
use sweep::queue::Merging;
use sweep::{Pass, Stop};

// The place of the pair x < y.
pub fn place(x: usize, y: usize) -> usize
    requires x_lt_y { x < y }
    requires y_bound { y < 64 }
    ensures { PlaceOf x y result }
{
    pairorder::order::place(x, y)
}

// Writes a map and its mark to place p.
pub fn store(maps: &mut [u8], marks: &mut [u8], p: usize, m: &[u8; 64], mark: u8)
    requires maps_len { length maps.old ≡ 129024 }
    requires marks_len { length marks.old ≡ 2016 }
    requires p_bound { p < 2016 }
    ensures { Stored p mark m.now maps.old marks.old maps.new marks.new }
{
    let at = p * 64;
    equivalence::blocks::copy(64, m, &mut maps[at..]);
    marks[p] = mark;
}

// 64 bytes, each of which names itself.
pub fn fresh() -> [u8; 64]
    ensures { Fresh (length result) (byte result) }
{
    let mut m = [0u8; 64];
    equivalence::blocks::identity(64, &mut m);
    m
}

// x and y are joined and nothing else.
fn begin_pass(merging: &mut Merging, n: usize, x: usize, y: usize)
    requires nothing_joined { NothingJoined (state_of merging.old) }
    requires n_bound { n ≤ 64 }
    requires x_lt_n { x < n }
    requires y_lt_n { y < n }
    ensures { PassStarted n x y (state_of merging.new) }
{
    merging.merge(n, x as u8, y as u8);
}

// The map becomes that of x and y by one pass, whose contexts are all elements. As many blocks were merged as are queued.
fn pass(merging: &mut Merging, n: usize, arities: &[u8], cells: &[u8], x: usize, y: usize)
    requires nothing_joined { NothingJoined (state_of merging.old) }
    requires accepted { Accepted (algebra_in n arities cells) }
    requires x_lt_y { x < y }
    requires y_lt_n { y < n }
    ensures { PairMade (algebra_in n arities.entry cells.entry) x y (byte merging.new.map) merging.new.len }
{
    begin_pass(merging, n, x, y);
    let live = fresh();
    let pass = Pass {
        n,
        cells,
        live: &live[..n],
        refused: &[],
        stop: Stop {
            limit: n - 1,
            v: 0,
            w: 0,
        },
    };
    pass.operations(merging, arities, x, y);
}

// The mark of a map, by whether it is known to be a congruence.
pub fn mark_of(whole: bool) -> u8
    ensures { result ≡ mark_of whole }
{
    if whole { WHOLE } else { KEPT }
}

// Makes what is kept for x and y, at place p.
fn make_pair(
    maps: &mut [u8],
    marks: &mut [u8],
    n: usize,
    arities: &[u8],
    cells: &[u8],
    x: usize,
    y: usize,
    p: usize,
)
    requires keeping { Keeping (algebra_in n arities cells) maps.old marks.old }
    requires accepted { Accepted (algebra_in n arities cells) }
    requires x_lt_y { x < y }
    requires y_lt_n { y < n }
    requires place_of { PlaceOf x y p }
    requires p_value { byte marks.old p ≡ 0 }
    ensures { KeptHere (algebra_in n arities.entry cells.entry) x y marks.old maps.new marks.new p }
{
    let mut made = Merging {
        map: fresh(),
        queue: [0u8; 64],
        len: 0,
    };
    pass(&mut made, n, arities, cells, x, y);
    store(maps, marks, p, &made.map, mark_of(made.len + 1 == n));
}

// What is kept for x and y is made where there is nothing. Its place.
pub fn keep_pair(
    maps: &mut [u8],
    marks: &mut [u8],
    n: usize,
    arities: &[u8],
    cells: &[u8],
    x: usize,
    y: usize,
) -> usize
    requires keeping { Keeping (algebra_in n arities cells) maps.old marks.old }
    requires accepted { Accepted (algebra_in n arities cells) }
    requires x_lt_y { x < y }
    requires y_lt_n { y < n }
    ensures { KeptHere (algebra_in n arities.entry cells.entry) x y marks.old maps.new marks.new result }
{
    let p = place(x, y);
    if marks[p] != NOTHING {
        return p;
    }
    make_pair(maps, marks, n, arities, cells, x, y, p);
    p
}
