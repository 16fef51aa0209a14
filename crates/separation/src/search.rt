// The pairs are settled in their order, row by row. The names of the map that stands are listed beside it. A bound of all that may still be found spares pairs, and ends the
// search.
ghost use Rattle.std.specs.Prelude.{◌≡◌, ◌+◌, ◌<◌, ◌≤◌, length};
ghost use Rattle.kernel.specs.InnerKernel.{Within, KeptPast};
ghost use Rattle.equivalence.specs.Equivalence.{byte};
ghost use Rattle.algebra.specs.Algebra.{algebra_in};
ghost use Rattle.bounding.specs.InnerSettled.{Earliest};
ghost use Rattle.bounding.specs.InnerBounds.{BoundLent};
ghost use Rattle.separation.specs.InnerSearch.{StandingIn, Marks};

use bounding::bounds::{bound_if, is_due, next_due, tried_in_vain};
use closure::{Congruence, close_apart};
use equivalence::Pair;

// Tries a pair. Where that joins the marked elements, the pair is marked: a later try that would join it is over.
fn try_pair(
    standing: &mut Congruence,
    refused: &mut [u8],
    n: usize,
    arities: &[u8],
    cells: &[u8],
    marked: Pair,
    x: usize,
    y: usize,
)
    requires x_lt_y { x < y }
    requires y_lt_n { y < n }
    requires standing { StandingIn n arities.now cells.now standing.old marked x y }
    requires marks { Marks (algebra_in n arities cells) refused.old marked (byte standing.old.map) }
    ensures standing_2 { StandingIn n arities.now cells.now standing.new marked x (y + 1) }
    ensures marks_2 { Marks (algebra_in n arities.entry cells.entry) refused.new marked (byte standing.new.map) }
    ensures within { Within n (byte standing.old.map) (byte standing.new.map) }
{
    if !close_apart(
        standing, n, arities, cells, x, y, refused, marked.x, marked.y,
    ) {
        refused[x * 64 + y] = 1;
    }
}

// Settles a pair. Where its second element is no smallest member, the pair of the two smallest members stands for it; where the bound `up` holds it
// apart, it is refused.
fn settle(
    standing: &mut Congruence,
    refused: &mut [u8],
    up: &[u8],
    n: usize,
    arities: &[u8],
    cells: &[u8],
    marked: Pair,
    x: usize,
    y: usize,
)
    requires bound_lent { BoundLent (algebra_in n arities cells) up.now marked (byte standing.old.map) }
    requires x_lt_y { x < y }
    requires y_lt_n { y < n }
    requires standing { StandingIn n arities.now cells.now standing.old marked x y }
    requires marks { Marks (algebra_in n arities cells) refused.old marked (byte standing.old.map) }
    ensures standing_2 { StandingIn n arities.now cells.now standing.new marked x (y + 1) }
    ensures marks_2 { Marks (algebra_in n arities.entry cells.entry) refused.new marked (byte standing.new.map) }
    ensures bound_lent_2 { BoundLent (algebra_in n arities.entry cells.entry) up.now marked (byte standing.new.map) }
{
    if standing.map[y] != y as u8 {
        return;
    }
    if up[x] != up[y] {
        return;
    }
    try_pair(standing, refused, n, arities, cells, marked, x, y);
}

// Settles the pairs of row x. Where x is no smallest member, the pairs of the smallest members stand for them.
fn settle_row(
    standing: &mut Congruence,
    refused: &mut [u8],
    up: &[u8],
    n: usize,
    arities: &[u8],
    cells: &[u8],
    marked: Pair,
    x: usize,
)
    requires bound_lent { BoundLent (algebra_in n arities cells) up.now marked (byte standing.old.map) }
    requires x_lt_n { x < n }
    requires standing { StandingIn n arities.now cells.now standing.old marked x (x + 1) }
    requires marks { Marks (algebra_in n arities cells) refused.old marked (byte standing.old.map) }
    ensures standing_2 { StandingIn n arities.now cells.now standing.new marked (x + 1) (x + 2) }
    ensures marks_2 { Marks (algebra_in n arities.entry cells.entry) refused.new marked (byte standing.new.map) }
    ensures bound_lent_2 { BoundLent (algebra_in n arities.entry cells.entry) up.now marked (byte standing.new.map) }
{
    if standing.map[x] != x as u8 {
        return;
    }
    for y in x + 1..n {
        settle(standing, refused, up, n, arities, cells, marked, x, y);
    }
}

// Settles rows until the bound `up` holds the marked elements apart; it does at the latest after the row of the first of them. `table` is working storage. How many
// pairs were tried in vain.
pub fn settle_rows(
    standing: &mut Congruence,
    refused: &mut [u8],
    table: &mut [u8],
    up: &mut [u8],
    n: usize,
    arities: &[u8],
    cells: &[u8],
    marked: Pair,
) -> usize
    requires in_bounds { 4096 ≤ length table.old }
    requires bound_lent { BoundLent (algebra_in n arities cells) up.old marked (byte standing.old.map) }
    requires standing { StandingIn n arities.now cells.now standing.old marked 0 1 }
    requires marks { Marks (algebra_in n arities cells) refused.old marked (byte standing.old.map) }
    ensures earliest { Earliest (algebra_in n arities.entry cells.entry) marked.x marked.y (byte up.new) }
    ensures kept_past { KeptPast n (byte up.old) (byte up.new) }
    ensures upper_bound { result ≤ 4096 }
{
    let v = marked.x;
    let w = marked.y;
    let mut trials = 0;
    let mut due = 1;
    let mut x = 0;
    // A `while`: the bound ends it, and not a count of rows.
    while up[v] == up[w] {
        settle_row(standing, refused, up, n, arities, cells, marked, x);
        trials += tried_in_vain(&standing.map, n, x, up);
        let made = is_due(&standing.map, n, marked, x, trials, due);
        due = next_due(made, trials, due);
        bound_if(
            made,
            &standing.map,
            &standing.names.list,
            standing.names.count,
            n,
            arities,
            cells,
            marked,
            x,
            table,
            up,
        );
        x += 1;
    }
    trials
}
