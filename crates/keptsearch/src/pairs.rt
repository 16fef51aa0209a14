// A row pair by pair, for one that joins the marked elements as a whole.
ghost use Rattle.std.specs.Prelude.{◌+◌, ◌<◌, ◌≤◌};
ghost use Rattle.algebra.specs.Algebra.{algebra_in};
ghost use Rattle.keeping.specs.InnerKeeping.{Keeping};
ghost use Rattle.keptsearch.specs.InnerRows.{KeptStanding, Generating};

use crate::row::unite;
use equivalence::Pair;
use keeping::principal::principal;

// m is joined with the map `kept`, the least congruence that joins x and y, where the marked elements stay apart.
fn take_apart(
    m: &mut [u8; 64],
    kept: &[u8],
    n: usize,
    arities: &[u8],
    cells: &[u8],
    marked: Pair,
    x: usize,
    y: usize,
)
    requires kept_standing { KeptStanding n arities.now cells.now m.old marked x y }
    requires x_lt_y { x < y }
    requires y_lt_n { y < n }
    requires generating { Generating (algebra_in n arities cells) x y kept.now }
    ensures { KeptStanding n arities.now cells.now m.new marked x (y + 1) }
{
    let mut all = *m;
    unite(&mut all, n, kept);
    let v = marked.x;
    let w = marked.y;
    if all[v] == all[w] {
        return;
    }
    *m = all;
}

// Settles a pair: where its second element is no name, the pair of names stands for it; else it is taken where the marked elements stay apart.
fn settle_pair(
    maps: &mut [u8],
    marks: &mut [u8],
    m: &mut [u8; 64],
    n: usize,
    arities: &[u8],
    cells: &[u8],
    marked: Pair,
    x: usize,
    y: usize,
)
    requires keeping { Keeping (algebra_in n arities cells) maps.old marks.old }
    requires kept_standing { KeptStanding n arities.now cells.now m.old marked x y }
    requires x_lt_y { x < y }
    requires y_lt_n { y < n }
    ensures keeping_2 { Keeping (algebra_in n arities.entry cells.entry) maps.new marks.new }
    ensures kept_standing_2 { KeptStanding n arities.now cells.now m.new marked x (y + 1) }
{
    if m[y] != y as u8 {
        return;
    }
    let v = marked.x;
    let w = marked.y;
    let p = principal(maps, marks, n, arities, cells, x, y, v, w);
    let at = p * 64;
    if maps[at + v] == maps[at + w] {
        return;
    }
    take_apart(m, &maps[at..], n, arities, cells, marked, x, y);
}

// Settles the pairs of row x, one by one.
pub fn settle_pairs(
    maps: &mut [u8],
    marks: &mut [u8],
    m: &mut [u8; 64],
    n: usize,
    arities: &[u8],
    cells: &[u8],
    marked: Pair,
    x: usize,
)
    requires keeping { Keeping (algebra_in n arities cells) maps.old marks.old }
    requires kept_standing { KeptStanding n arities.now cells.now m.old marked x (x + 1) }
    requires x_lt_n { x < n }
    ensures keeping_2 { Keeping (algebra_in n arities.entry cells.entry) maps.new marks.new }
    ensures kept_standing_2 { KeptStanding n arities.now cells.now m.new marked (x + 1) (x + 2) }
{
    for y in x + 1..n {
        settle_pair(maps, marks, m, n, arities, cells, marked, x, y);
    }
}
