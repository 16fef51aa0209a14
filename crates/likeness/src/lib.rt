// The test whether a map is a congruence: each cell is compared with the cell where one argument is replaced by its name, and the first that is in another block ends it.
#![tactic(auto)]

ghost use Rattle.std.specs.Prelude.{◌≡◌, T};
ghost use Rattle.equivalence.specs.Equivalence.{is_map};
ghost use Rattle.algebra.specs.Accepted.{Accepted};
ghost use Rattle.algebra.specs.Algebra.{algebra_in};
ghost use Rattle.algebra.specs.Congruence.{is_congruence};

mod alike;

use alike::Walk;

// Whether the map m is a congruence. Where there is no operation every map is; the identity and the map with one block always are; else it ends at the
// first cell that the map takes apart.
pub fn is_congruence(n: usize, arities: &[u8], cells: &[u8], m: &[u8]) -> bool
    requires accepted { Accepted (algebra_in n arities cells) }
    requires t { T (is_map n m.now) }
    ensures { result ≡ is_congruence (algebra_in n arities.entry cells.entry) m.now }
{
    if arities.is_empty() || algebra::largest(m) == 0 {
        return true;
    }
    // Of all elements, those that are no smallest members.
    let mut room = [0u8; 64];
    let all = &mut room[..n];
    equivalence::blocks::identity(n, all);
    let left = refinement::line::sift(m, all);
    let others = &all[..left];
    if others.is_empty() {
        return true;
    }
    let walk = Walk {
        n,
        m,
        cells,
        others,
    };
    walk.is_compatible(arities)
}
