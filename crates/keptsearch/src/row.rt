// A row whole: a map is joined with all congruences of pairs of the row that hold the marked elements apart.
ghost use Rattle.std.specs.Prelude.{◌≡◌, ◌+◌, ◌<◌, ◌≤◌, length};
ghost use Rattle.equivalence.specs.Equivalence.{byte};
ghost use Rattle.kernel.specs.InnerKernel.{Canonical};
ghost use Rattle.algebra.specs.Algebra.{algebra_in};
ghost use Rattle.keeping.specs.InnerKeeping.{Keeping};
ghost use Rattle.keeping.specs.InnerPrincipal.{FullMap};
ghost use Rattle.keptsearch.specs.InnerRows.{KeptStanding, RowLent, WithKept};

use equivalence::Pair;
use keeping::WHOLE;
use keeping::join::join_kept;
use keeping::pairs::place;
use keeping::principal::principal;
use sweep::queue::Merging;

// Joins each element with its name in `kept`.
pub fn unite(all: &mut [u8; 64], n: usize, kept: &[u8])
    requires full_map { FullMap n (length all.old) (byte all.old) }
    requires n_in_bounds { n ≤ length kept.now }
    requires canonical { Canonical n (byte kept.now) }
    ensures { WithKept n (length all.new) (byte kept.now) (byte all.old) (byte all.new) }
{
    let mut merging = Merging {
        map: *all,
        queue: [0u8; 64],
        len: 0,
    };
    join_kept(&mut merging, n, kept);
    *all = merging.map;
}

// Joins what is kept for x and y, where that is a congruence that holds the marked elements apart, and does not give anything that is there already.
fn take_whole(
    maps: &[u8],
    marks: &[u8],
    m: &[u8],
    all: &mut [u8; 64],
    n: usize,
    arities: &[u8],
    cells: &[u8],
    marked: Pair,
    x: usize,
    y: usize,
)
    requires keeping { Keeping (algebra_in n arities cells) maps.now marks.now }
    requires row_lent { RowLent n arities.now cells.now m.now all.old marked x (x + 1) }
    requires x_lt_y { x < y }
    requires y_lt_n { y < n }
    ensures { RowLent n arities.now cells.now m.now all.new marked x (x + 1) }
{
    if m[y] != y as u8 {
        return;
    }
    if all[x] == all[y] {
        return;
    }
    let p = place(x, y);
    if marks[p] != WHOLE {
        return;
    }
    let at = p * 64;
    let v = marked.x;
    let w = marked.y;
    if maps[at + v] == maps[at + w] {
        return;
    }
    unite(all, n, &maps[at..]);
}

// Joins the congruences of the row that are known already, those of the last elements first: they tend to hold the others.
fn take_all_whole(
    maps: &[u8],
    marks: &[u8],
    m: &[u8],
    all: &mut [u8; 64],
    n: usize,
    arities: &[u8],
    cells: &[u8],
    marked: Pair,
    x: usize,
)
    requires keeping { Keeping (algebra_in n arities cells) maps.now marks.now }
    requires row_lent { RowLent n arities.now cells.now m.now all.old marked x (x + 1) }
    ensures { RowLent n arities.now cells.now m.now all.new marked x (x + 1) }
{
    let v = marked.x;
    let w = marked.y;
    for y in (x + 1..n).rev() {
        if all[v] == all[w] {
            return;
        }
        take_whole(maps, marks, m, all, n, arities, cells, marked, x, y);
    }
}

// Tries a pair of the row: the least congruence that joins x and y is joined where it holds the marked elements apart.
fn widen(
    maps: &mut [u8],
    marks: &mut [u8],
    m: &[u8],
    all: &mut [u8; 64],
    n: usize,
    arities: &[u8],
    cells: &[u8],
    marked: Pair,
    x: usize,
    y: usize,
)
    requires keeping { Keeping (algebra_in n arities cells) maps.old marks.old }
    requires row_lent { RowLent n arities.now cells.now m.now all.old marked x y }
    requires x_lt_y { x < y }
    requires y_lt_n { y < n }
    ensures keeping_2 { Keeping (algebra_in n arities.entry cells.entry) maps.new marks.new }
    ensures row_lent_2 { RowLent n arities.now cells.now m.now all.new marked x (y + 1) }
{
    if m[y] != y as u8 {
        return;
    }
    if all[x] == all[y] {
        return;
    }
    let v = marked.x;
    let w = marked.y;
    let p = principal(maps, marks, n, arities, cells, x, y, v, w);
    let at = p * 64;
    if maps[at + v] == maps[at + w] {
        return;
    }
    unite(all, n, &maps[at..]);
}

// `all`, a copy of m, is joined with all congruences of the row of x that hold the marked elements apart, or until it does not.
pub fn join_row(
    maps: &mut [u8],
    marks: &mut [u8],
    m: &[u8],
    all: &mut [u8; 64],
    n: usize,
    arities: &[u8],
    cells: &[u8],
    marked: Pair,
    x: usize,
)
    requires keeping { Keeping (algebra_in n arities cells) maps.old marks.old }
    requires row_lent { RowLent n arities.now cells.now m.now all.old marked x (x + 1) }
    ensures keeping_2 { Keeping (algebra_in n arities.entry cells.entry) maps.new marks.new }
    ensures row_lent_2 { RowLent n arities.now cells.now m.now all.new marked x n }
{
    take_all_whole(maps, marks, m, all, n, arities, cells, marked, x);
    let v = marked.x;
    let w = marked.y;
    for y in x + 1..n {
        if all[v] == all[w] {
            return;
        }
        widen(maps, marks, m, all, n, arities, cells, marked, x, y);
    }
}
