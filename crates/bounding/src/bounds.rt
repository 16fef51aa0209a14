// Bounds between rows: once a row is settled, what may still be found lies inside "the block of x and the rest", and so inside the greatest congruence in that.
ghost use Rattle.std.specs.Prelude.{◌≡◌, true, ◌+◌, ◌*◌, ◌<◌, ◌≤◌, length};
ghost use Rattle.equivalence.specs.Equivalence.{byte};
ghost use Rattle.algebra.specs.Algebra.{algebra_in};
ghost use Rattle.bounding.specs.InnerBounds.{RowSettled, BoundLent, Tightened, next_due};

use crate::blocks::two_blocks;
use equivalence::Pair;

// How many pairs of row x, which is settled, were tried in vain: the names behind x that the bound did not spare.
pub fn tried_in_vain(m: &[u8], n: usize, x: usize, up: &[u8]) -> usize
    requires n_bound { n ≤ 64 }
    requires n_in_bounds { n ≤ length m.now }
    requires n_in_bounds_2 { n ≤ length up.now }
    requires x_lt_n { x < n }
    ensures { result ≤ n }
{
    (x + 1..n)
        .filter(|y| m[*y] as usize == *y && up[*y] == up[x])
        .count()
}

// Is a bound worth its refinement after row x? After the row of a marked element it ends the search; else each is made after twice as many trials as the last.
pub fn is_due(m: &[u8], n: usize, marked: Pair, x: usize, trials: usize, due: usize) -> bool
    requires n_bound { n ≤ 64 }
    requires n_in_bounds { n ≤ length m.now }
    requires x_lt_n { x < n }
    requires x_lt_n_2 { marked.x < n }
    requires y_lt_n { marked.y < n }
    ensures { x ≡ marked.x → result ≡ true }
{
    let joined = m[marked.x] == m[x] || m[marked.y] == m[x];
    x == marked.x || m[x] as usize == x && (joined || due <= trials)
}

// At how many trials the next bound is due: at more than twice as many, where one is made.
pub fn next_due(made: bool, trials: usize, due: usize) -> usize
    requires { trials ≤ 4096 }
    ensures { result ≡ next_due made trials due }
{
    if made { 2 * trials + 1 } else { due }
}

// Where it is to be made, the bound `up` becomes the greatest congruence inside itself and "the block of x in m, and the rest". The names of m, which lies
// inside, stand for all elements. `table` is working storage.
pub fn bound_if(
    due: bool,
    m: &[u8],
    names: &[u8],
    count: usize,
    n: usize,
    arities: &[u8],
    cells: &[u8],
    marked: Pair,
    x: usize,
    table: &mut [u8],
    up: &mut [u8],
)
    requires in_bounds { 4096 ≤ length table.old }
    requires row_settled { RowSettled n arities.now cells.now m.now names.now marked x count }
    requires bound_lent { BoundLent (algebra_in n arities cells) up.old marked (byte m.now) }
    requires due_value { x ≡ marked.x → due ≡ true }
    ensures { Tightened (algebra_in n arities.entry cells.entry) marked.x marked.y x (byte m.now) (byte up.old) (byte up.new) }
{
    if !due {
        return;
    }
    let mut parts = [0u8; 64];
    two_blocks(m, n, x, &mut parts);
    lattice::meets::meet_with(n, &parts, table, up);
    refinement::refine_above(up, n, arities, cells, names, count);
}
