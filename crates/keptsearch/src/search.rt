// Rows settled by kept pairs, until one of the marked elements is in the block of a settled row.
ghost use Rattle.std.specs.Prelude.{◌+◌, ◌<◌, ◌≤◌, length};
ghost use Rattle.equivalence.specs.Equivalence.{byte};
ghost use Rattle.kernel.specs.InnerKernel.{KeptPast};
ghost use Rattle.algebra.specs.Algebra.{algebra_in};
ghost use Rattle.bounding.specs.InnerSettled.{Earliest};
ghost use Rattle.bounding.specs.InnerBounds.{BoundLent};
ghost use Rattle.keeping.specs.InnerKeeping.{Keeping};
ghost use Rattle.keptsearch.specs.InnerRows.{KeptStanding};

use crate::bound::bound_if;
use crate::pairs::settle_pairs;
use crate::row::join_row;
use bounding::bounds::is_due;
use equivalence::Pair;

// Settles the pairs of row x: the row whole, or pair by pair where that joins the marked elements. Where x is no name, the pairs of names stand for them.
fn settle_row(
    maps: &mut [u8],
    marks: &mut [u8],
    m: &mut [u8; 64],
    n: usize,
    arities: &[u8],
    cells: &[u8],
    marked: Pair,
    x: usize,
)
    requires keeping { Keeping (algebra_in n arities cells) maps.old marks.old }
    requires kept_standing { KeptStanding n arities.now cells.now m.old marked x (x + 1) }
    requires x_lt_n { x < n }
    ensures keeping_2 { Keeping (algebra_in n arities.entry cells.entry) maps.new marks.new }
    ensures kept_standing_2 { KeptStanding n arities.now cells.now m.new marked (x + 1) (x + 2) }
{
    if m[x] != x as u8 {
        return;
    }
    let mut all = *m;
    join_row(maps, marks, m, &mut all, n, arities, cells, marked, x);
    let v = marked.x;
    let w = marked.y;
    if all[v] == all[w] {
        settle_pairs(maps, marks, m, n, arities, cells, marked, x);
        return;
    }
    *m = all;
}

// Settles rows until the bound `up` holds the marked elements apart: after the row of one of them. `table` is working storage.
pub fn settle_rows(
    maps: &mut [u8],
    marks: &mut [u8],
    m: &mut [u8; 64],
    table: &mut [u8],
    up: &mut [u8],
    n: usize,
    arities: &[u8],
    cells: &[u8],
    marked: Pair,
)
    requires in_bounds { 4096 ≤ length table.old }
    requires keeping { Keeping (algebra_in n arities cells) maps.old marks.old }
    requires kept_standing { KeptStanding n arities.now cells.now m.old marked 0 1 }
    requires bound_lent { BoundLent (algebra_in n arities cells) up.old marked (byte m.old) }
    ensures keeping_2 { Keeping (algebra_in n arities.entry cells.entry) maps.new marks.new }
    ensures earliest { Earliest (algebra_in n arities.entry cells.entry) marked.x marked.y (byte up.new) }
    ensures kept_past { KeptPast n (byte up.old) (byte up.new) }
{
    let v = marked.x;
    let w = marked.y;
    let mut x = 0;
    // A `while`: the bound ends it, and not a count of rows.
    while up[v] == up[w] {
        settle_row(maps, marks, m, n, arities, cells, marked, x);
        let due = is_due(m, n, marked, x, 0, 1);
        bound_if(due, maps, marks, m, n, arities, cells, marked, x, table, up);
        x += 1;
    }
}
