// The bound after a settled row: the block of x and the rest, which kept pairs may show to be a congruence, so that nothing is left to refine.
ghost use Rattle.std.specs.Prelude.{true, ◌≡◌, ◌+◌, ◌<◌, ◌≤◌, length};
ghost use Rattle.equivalence.specs.Equivalence.{byte};
ghost use Rattle.kernel.specs.InnerKernel.{Canonical, KeptPast, bit};
ghost use Rattle.algebra.specs.Algebra.{algebra_in};
ghost use Rattle.algebra.specs.Accepted.{Accepted};
ghost use Rattle.translation.specs.InnerTranslations.{Refined};
ghost use Rattle.refinement.specs.InnerSplitting.{Represented};
ghost use Rattle.bounding.specs.InnerBounds.{NamesAmong, BoundLent, Tightened};
ghost use Rattle.keeping.specs.InnerKeeping.{Keeping};
ghost use Rattle.keptsearch.specs.InnerRows.{KeptStanding};

use bounding::blocks::two_blocks;
use equivalence::Pair;
use keeping::inside::is_proved;

// Lists the names of m. How many there are.
fn list_names(m: &[u8], n: usize, names: &mut [u8]) -> usize
    requires n_bound { n ≤ 64 }
    requires n_in_bounds { n ≤ length m.now }
    requires n_in_bounds_2 { n ≤ length names.old }
    ensures { NamesAmong n (byte m.now) names.new result }
{
    let mut len = 0;
    for x in 0..n {
        names[len] = x as u8;
        len += usize::from(m[x] as usize == x);
    }
    len
}

// The map `up`, which the listed elements represent, becomes the greatest congruence inside it: it may be one, as kept pairs show.
fn refine_kept(
    maps: &mut [u8],
    marks: &mut [u8],
    n: usize,
    arities: &[u8],
    cells: &[u8],
    names: &[u8],
    count: usize,
    up: &mut [u8],
)
    requires keeping { Keeping (algebra_in n arities cells) maps.old marks.old }
    requires accepted { Accepted (algebra_in n arities cells) }
    requires n_in_bounds { n ≤ length up.old }
    requires canonical { Canonical n (byte up.old) }
    requires represented { Represented (algebra_in n arities cells) names.now count (byte up.old) }
    requires count_bound { count ≤ 64 }
    ensures keeping_2 { Keeping (algebra_in n arities.entry cells.entry) maps.new marks.new }
    ensures refined { Refined (algebra_in n arities.entry cells.entry) (byte up.old) (byte up.new) }
    ensures kept_past { KeptPast n (byte up.old) (byte up.new) }
{
    if is_proved(maps, marks, n, arities, cells, names, count, up) {
        return;
    }
    refinement::refine_above(up, n, arities, cells, names, count);
}

// Where it is to be made, the bound `up` becomes the greatest congruence inside itself and "the block of x in m, and the rest". `table` is working storage.
pub fn bound_if(
    due: bool,
    maps: &mut [u8],
    marks: &mut [u8],
    m: &[u8],
    n: usize,
    arities: &[u8],
    cells: &[u8],
    marked: Pair,
    x: usize,
    table: &mut [u8],
    up: &mut [u8],
)
    requires keeping { Keeping (algebra_in n arities cells) maps.old marks.old }
    requires in_bounds { 4096 ≤ length table.old }
    requires kept_standing { KeptStanding n arities.now cells.now m.now marked (x + 1) (x + 2) }
    requires bound_lent { BoundLent (algebra_in n arities cells) up.old marked (byte m.now) }
    requires x_lt_n { x < n }
    requires due_value { x ≡ marked.x → due ≡ true }
    ensures keeping_2 { Keeping (algebra_in n arities.entry cells.entry) maps.new marks.new }
    ensures tightened { Tightened (algebra_in n arities.entry cells.entry) marked.x marked.y x (byte m.now) (byte up.old) (byte up.new) }
{
    if !due {
        return;
    }
    let mut parts = [0u8; 64];
    let mut names = [0u8; 64];
    two_blocks(m, n, x, &mut parts);
    lattice::meets::meet_with(n, &parts, table, up);
    let count = list_names(m, n, &mut names);
    refine_kept(maps, marks, n, arities, cells, &names, count, up);
}
