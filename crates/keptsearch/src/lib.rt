// Separate by kept pairs, for whoever separates pair after pair of one algebra: what two elements give is joined instead of closed anew.
#![tactic(auto)]

ghost use Rattle.std.specs.Prelude.{◌≡◌, ◌<◌, ◌≤◌, length};
ghost use Rattle.equivalence.specs.Equivalence.{byte};
ghost use Rattle.kernel.specs.InnerKernel.{KeptPast};
ghost use Rattle.algebra.specs.Algebra.{algebra_in};
ghost use Rattle.algebra.specs.Accepted.{Accepted};
ghost use Rattle.bounding.specs.InnerSettled.{Earliest};
ghost use Rattle.keeping.specs.InnerKeeping.{Keeping};

use equivalence::Pair;
use keeping::pairs::fresh;

mod bound;
mod pairs;
mod row;
mod search;

// The earliest congruence that holds v and w apart goes to the first n bytes of out; those past n keep their value. What is kept of pairs in `maps` and `marks` is used, and more is kept. The search begins at the identity, and its bound, which becomes the answer, at the map with one block.
pub fn earliest_apart(
    maps: &mut [u8],
    marks: &mut [u8],
    n: usize,
    arities: &[u8],
    cells: &[u8],
    v: usize,
    w: usize,
    out: &mut [u8],
)
    requires keeping { Keeping (algebra_in n arities cells) maps.old marks.old }
    requires accepted { Accepted (algebra_in n arities cells) }
    requires v_lt_n { v < n }
    requires w_lt_n { w < n }
    requires fact { v ≡ w → ⊥ }
    requires n_in_bounds { n ≤ length out.old }
    ensures keeping_2 { Keeping (algebra_in n arities.entry cells.entry) maps.new marks.new }
    ensures earliest { Earliest (algebra_in n arities.entry cells.entry) v w (byte out.new) }
    ensures kept_past { KeptPast n (byte out.old) (byte out.new) }
{
    // First: declared behind a call, it is cleared twice.
    let mut table = [0u8; 4096];
    let mut m = fresh();
    maplist::whole_into(n, out);
    search::settle_rows(
        maps,
        marks,
        &mut m,
        &mut table,
        out,
        n,
        arities,
        cells,
        Pair { x: v, y: w },
    );
}
