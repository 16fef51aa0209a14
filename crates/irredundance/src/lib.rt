// Certify's second and third condition: the list meets in the identity, and none of it can be left out. Working storage: the meets of 64 suffixes, the
// table for meets, and one meet.
#![tactic(auto)]

ghost use Rattle.std.specs.Prelude.{◌≡◌, not, ◌+◌, ◌*◌, ◌≤◌, length};
ghost use Rattle.equivalence.specs.Lists.{up_to, every, without};
ghost use Rattle.equivalence.specs.Equivalence.{is_identity, meet_all};
ghost use Rattle.maplist.specs.InnerMapLists.{map_list, MapsListed, SuffixMeets};
ghost use Rattle.irredundance.specs.InnerIrredundant.{irredundant};

use equivalence::map::is_identity;
use lattice::meets::meet_with;
use maplist::{meets_in_identity, suffix_meets, whole_into};

// Whether no map can be left out: whether those before it and those behind it never meet in the identity. `table` and `met` are working
// storage.
fn none_superfluous(
    n: usize,
    count: usize,
    maps: &[u8],
    suffixes: &[u8],
    table: &mut [u8],
    met: &mut [u8],
) -> bool
    requires maps_listed { MapsListed n count maps.now }
    requires suffix_meets { SuffixMeets n (map_list n count maps.now) suffixes.now }
    requires n_in_bounds { count * n + n ≤ length suffixes.now }
    requires in_bounds { 4096 ≤ length table.old }
    requires n_in_bounds_2 { n ≤ length met.old }
    ensures { result ≡ every (λ i. not (is_identity n (meet_all n (without i (map_list n count maps.now))))) (up_to (length (map_list n count maps.now))) }
{
    whole_into(n, met);
    for i in 0..count {
        if meets_in_identity(n, met, &suffixes[(i + 1) * n..], table) {
            return false;
        }
        meet_with(n, &maps[i * n..], table, met);
    }
    true
}

// Whether the first `count` maps meet in the identity, and no longer do where any one is left out.
pub fn is_irredundant(n: usize, count: usize, maps: &[u8]) -> bool
    requires { MapsListed n count maps.now }
    ensures { result ≡ irredundant n (map_list n count maps.now) }
{
    let mut suffixes = [0u8; 4096];
    let mut table = [0u8; 4096];
    let mut met = [0u8; 64];
    suffix_meets(n, count, maps, &mut table, &mut met, &mut suffixes);
    is_identity(n, &suffixes) && none_superfluous(n, count, maps, &suffixes, &mut table, &mut met)
}
