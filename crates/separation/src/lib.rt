// Separate: the earliest congruence of an accepted algebra that holds two elements apart.
#![tactic(auto)]

ghost use Rattle.std.specs.Prelude.{◌≡◌, ◌<◌, ◌≤◌, length};
ghost use Rattle.equivalence.specs.Equivalence.{byte};
ghost use Rattle.kernel.specs.InnerKernel.{KeptPast};
ghost use Rattle.algebra.specs.Algebra.{algebra_in};
ghost use Rattle.algebra.specs.Accepted.{Accepted};
ghost use Rattle.bounding.specs.InnerSettled.{Earliest};

use closure::Congruence;
use closure::rounds::Live;
use closure::start::fresh;
use equivalence::Pair;

pub mod search;

// The earliest congruence that holds v and w apart goes to the first n bytes of out; those past n keep their value. How many pairs were tried in
// vain, which tells how hard the search was. The search begins at the identity, and its bound, which becomes the answer, at the map with one block.
pub fn earliest_apart(
    n: usize,
    arities: &[u8],
    cells: &[u8],
    v: usize,
    w: usize,
    out: &mut [u8],
) -> usize
    requires accepted { Accepted (algebra_in n arities cells) }
    requires v_lt_n { v < n }
    requires w_lt_n { w < n }
    requires fact { v ≡ w → ⊥ }
    requires n_in_bounds { n ≤ length out.old }
    ensures earliest { Earliest (algebra_in n arities.entry cells.entry) v w (byte out.new) }
    ensures kept_past { KeptPast n (byte out.old) (byte out.new) }
    ensures upper_bound { result ≤ 4096 }
{
    // First of all: declared behind a call, each is cleared twice.
    let mut refused = [0u8; 4096];
    let mut table = [0u8; 4096];
    let mut standing = Congruence {
        map: fresh(),
        names: Live {
            list: fresh(),
            places: fresh(),
            count: n,
        },
    };
    maplist::whole_into(n, out);
    search::settle_rows(
        &mut standing,
        &mut refused,
        &mut table,
        out,
        n,
        arities,
        cells,
        Pair { x: v, y: w },
    )
}
