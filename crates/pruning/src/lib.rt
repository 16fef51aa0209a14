// Decompose's second loop: of a list of maps that meets in the identity, those without which the rest would not. Here they are only marked;
// `write` writes them.
#![tactic(auto)]

ghost use Rattle.std.specs.Prelude.{◌≡◌, ◌+◌, ◌*◌, ◌≤◌, length};
ghost use Rattle.equivalence.specs.Equivalence.{byte};
ghost use Rattle.kernel.specs.InnerKernel.{Canonical};
ghost use Rattle.maplist.specs.InnerMapLists.{map_list, MapsListed, SuffixMeets};
ghost use Rattle.pruning.specs.InnerPruning.{in_turn, NeededMaps};

use lattice::meets::meet_with;
use maplist::{meets_in_identity, suffix_meets, whole_into};

pub mod write;

// A map in its turn. `met` is the meet of those needed so far and `after` that of those behind the map: where these two meet in the identity it
// is dropped, else it is met. Whether it is needed. `table` is working storage.
fn meet_if_needed(n: usize, map: &[u8], after: &[u8], table: &mut [u8], met: &mut [u8]) -> bool
    requires n_bound { n ≤ 64 }
    requires n_in_bounds { n ≤ length map.now }
    requires n_in_bounds_2 { n ≤ length after.now }
    requires in_bounds { 4096 ≤ length table.old }
    requires n_in_bounds_3 { n ≤ length met.old }
    requires canonical { Canonical n (byte map.now) }
    requires canonical_2 { Canonical n (byte after.now) }
    requires canonical_3 { Canonical n (byte met.old) }
    ensures { (result, met.new) ≡ in_turn n map.now after.now met.old }
{
    if meets_in_identity(n, met, after, table) {
        return false;
    }
    meet_with(n, map, table, met);
    true
}

// Every map of the list in its turn: the numbers of those needed stand first in `needed`. How many they are.
fn mark_in_turn(
    n: usize,
    count: usize,
    maps: &[u8],
    suffixes: &[u8],
    table: &mut [u8],
    met: &mut [u8],
    needed: &mut [u8],
) -> usize
    requires maps_listed { MapsListed n count maps.now }
    requires suffix_meets { SuffixMeets n (map_list n count maps.now) suffixes.now }
    requires n_in_bounds { count * n + n ≤ length suffixes.now }
    requires in_bounds { 4096 ≤ length table.old }
    requires n_in_bounds_2 { n ≤ length met.old }
    requires count_in_bounds { count ≤ length needed.old }
    ensures { NeededMaps n count maps.now result needed.new }
{
    whole_into(n, met);
    let mut kept = 0;
    for i in 0..count {
        if meet_if_needed(n, &maps[i * n..], &suffixes[(i + 1) * n..], table, met) {
            needed[kept] = i as u8;
            kept += 1;
        }
    }
    kept
}

// Marks those of the list that are not dropped: their numbers stand first in `needed`. How many they are. `suffixes`, `table` and `met` are
// working storage.
pub fn mark_needed(
    n: usize,
    count: usize,
    maps: &[u8],
    suffixes: &mut [u8],
    table: &mut [u8],
    met: &mut [u8],
    needed: &mut [u8],
) -> usize
    requires maps_listed { MapsListed n count maps.now }
    requires n_in_bounds { count * n + n ≤ length suffixes.old }
    requires in_bounds { 4096 ≤ length table.old }
    requires n_in_bounds_2 { n ≤ length met.old }
    requires count_in_bounds { count ≤ length needed.old }
    ensures { NeededMaps n count maps.now result needed.new }
{
    suffix_meets(n, count, maps, table, met, suffixes);
    mark_in_turn(n, count, maps, suffixes, table, met, needed)
}
