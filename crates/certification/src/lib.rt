// Certify of an accepted algebra: the conditions on a list of maps, the cheapest first.
#![tactic(auto)]

ghost use Rattle.std.specs.Prelude.{◌≡◌, ◌&&◌};
ghost use Rattle.equivalence.specs.Lists.{every};
ghost use Rattle.equivalence.specs.Equivalence.{is_map};
ghost use Rattle.algebra.specs.Algebra.{algebra_in};
ghost use Rattle.algebra.specs.Accepted.{Accepted};
ghost use Rattle.algebra.specs.Congruence.{is_congruence};
ghost use Rattle.theory.specs.Certify.{certified};
ghost use Rattle.maplist.specs.InnerMapLists.{map_list, MapsListed};

use crate::maximal::all_maximal;
use irredundance::is_irredundant;

mod maximal;

// Whether every map is a congruence.
fn all_congruences(n: usize, arities: &[u8], cells: &[u8], count: usize, maps: &[u8]) -> bool
    requires accepted { Accepted (algebra_in n arities cells) }
    requires maps_listed { MapsListed n count maps.now }
    ensures { result ≡ every (λ m. is_map n m && is_congruence (algebra_in n arities.entry cells.entry) m) (map_list n count maps.now) }
{
    for i in 0..count {
        let at = i * n;
        if !likeness::is_congruence(n, arities, cells, &maps[at..at + n]) {
            return false;
        }
    }
    true
}

// Whether the first `count` maps are congruences that meet in the identity, none of which can be left out, each maximal for some pair.
pub fn is_certified(n: usize, arities: &[u8], cells: &[u8], count: usize, maps: &[u8]) -> bool
    requires accepted { Accepted (algebra_in n arities cells) }
    requires maps_listed { MapsListed n count maps.now }
    ensures { result ≡ certified (algebra_in n arities.entry cells.entry) (map_list n count maps.now) }
{
    if !is_irredundant(n, count, maps) {
        return false;
    }
    if !all_congruences(n, arities, cells, count, maps) {
        return false;
    }
    all_maximal(n, arities, cells, count, maps)
}
