// The least, the greatest and the earliest congruence of an accepted algebra, written at the start of a lent slice. Bytes past the first n keep their value.
#![tactic(auto)]

ghost use Rattle.std.specs.Prelude.{◌≡◌, ℕ, ◌-◌, ◌<◌, ◌≤◌, T, length};
ghost use Rattle.equivalence.specs.Equivalence.{byte, is_map, blocks};
ghost use Rattle.kernel.specs.InnerKernel.{Canonical};
ghost use Rattle.equivalence.specs.Lent.{written};
ghost use Rattle.algebra.specs.Algebra.{algebra_in};
ghost use Rattle.algebra.specs.Accepted.{Accepted};
ghost use Rattle.theory.specs.Extremal.{generated, contained, separated};
ghost use Rattle.keeping.specs.InnerKeeping.{Keeping};
ghost use Rattle.extremal.specs.InnerExtension.{MapExtended};

// The least congruence that holds the pairs of a flat list goes to out. How many merges made it.
pub fn generated_into(n: usize, arities: &[u8], cells: &[u8], pairs: &[u8], out: &mut [u8]) -> u8
    requires accepted { Accepted (algebra_in n arities cells) }
    requires by_index { (i : ℕ) → i < length pairs.now → byte pairs.now i < n }
    requires n_in_bounds { n ≤ length out.old }
    ensures out_after { out.new ≡ written (generated (algebra_in n arities.entry cells.entry) pairs.now) out.old }
    ensures value { result ≡ n - blocks n (generated (algebra_in n arities.entry cells.entry) pairs.now) }
{
    closure::close_pairs(out, n, arities, cells, pairs) as u8
}

// The map m becomes the least congruence that holds what m holds, and x and y. How many blocks that cost.
pub fn extended_into(
    n: usize,
    arities: &[u8],
    cells: &[u8],
    x: usize,
    y: usize,
    m: &mut [u8],
) -> usize
    requires accepted { Accepted (algebra_in n arities cells) }
    requires n_in_bounds { n ≤ length m.old }
    requires canonical { Canonical n (byte m.old) }
    requires x_lt_n { x < n }
    requires y_lt_n { y < n }
    ensures { MapExtended (algebra_in n arities.entry cells.entry) x y m.old m.new result }
{
    closure::close_with(m, n, arities, cells, x, y)
}

// The greatest congruence inside a map goes to out.
pub fn contained_into(n: usize, arities: &[u8], cells: &[u8], map: &[u8], out: &mut [u8])
    requires accepted { Accepted (algebra_in n arities cells) }
    requires t { T (is_map n map.now) }
    requires n_in_bounds { n ≤ length out.old }
    ensures { out.new ≡ written (contained (algebra_in n arities.entry cells.entry) map.now) out.old }
{
    equivalence::blocks::copy(n, map, out);
    refinement::refine(out, n, arities, cells);
}

// The earliest congruence that holds v and w apart goes to out. How many pairs were tried in vain.
pub fn separated_into(
    n: usize,
    arities: &[u8],
    cells: &[u8],
    v: usize,
    w: usize,
    out: &mut [u8],
) -> usize
    requires accepted { Accepted (algebra_in n arities cells) }
    requires v_lt_n { v < n }
    requires w_lt_n { w < n }
    requires fact { v ≡ w → ⊥ }
    requires n_in_bounds { n ≤ length out.old }
    ensures out_after { out.new ≡ written (separated (algebra_in n arities.entry cells.entry) v w) out.old }
    ensures upper_bound { result ≤ 4096 }
{
    separation::earliest_apart(n, arities, cells, v, w, out)
}

// The same, by what pairs give, which is kept in `maps` with its marks in `marks`: for whoever asks many times of one algebra.
pub fn separated_kept_into(
    maps: &mut [u8],
    marks: &mut [u8],
    n: usize,
    arities: &[u8],
    cells: &[u8],
    v: usize,
    w: usize,
    out: &mut [u8],
)
    requires keeping { Keeping (algebra_in n arities cells) maps.old marks.old }
    requires accepted { Accepted (algebra_in n arities cells) }
    requires v_lt_n { v < n }
    requires w_lt_n { w < n }
    requires fact { v ≡ w → ⊥ }
    requires n_in_bounds { n ≤ length out.old }
    ensures out_after { out.new ≡ written (separated (algebra_in n arities.entry cells.entry) v w) out.old }
    ensures keeping_2 { Keeping (algebra_in n arities.entry cells.entry) maps.new marks.new }
{
    keptsearch::earliest_apart(maps, marks, n, arities, cells, v, w, out);
}
