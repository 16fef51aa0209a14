// Meets of the maps of a list. A list of maps is a slice, map i in the n bytes from i × n on; a map alone is the first n bytes of a slice.
#![tactic(auto)]

ghost use Rattle.std.specs.Prelude.{◌≡◌, ◌+◌, ◌*◌, ◌≤◌, length, drop};
ghost use Rattle.equivalence.specs.Equivalence.{byte, is_identity, whole, meet};
ghost use Rattle.kernel.specs.InnerKernel.{Canonical};
ghost use Rattle.equivalence.specs.Lent.{written, laid};
ghost use Rattle.maplist.specs.InnerMapLists.{map_list, MapsListed, SuffixMeets};

use lattice::meets::{first_alike, meet_with};

// The first n bytes become the map with one block.
pub fn whole_into(n: usize, m: &mut [u8])
    requires { n ≤ length m.old }
    ensures { m.new ≡ written (whole n) m.old }
{
    m[..n].fill(0);
}

// Whether a and b meet in the identity: whether no two elements have the same names in both. The first two that have them end it. `table` is working
// storage, with any content.
pub fn meets_in_identity(n: usize, a: &[u8], b: &[u8], table: &mut [u8]) -> bool
    requires n_bound { n ≤ 64 }
    requires n_in_bounds { n ≤ length a.now }
    requires n_in_bounds_2 { n ≤ length b.now }
    requires canonical { Canonical n (byte a.now) }
    requires canonical_2 { Canonical n (byte b.now) }
    requires in_bounds { 4096 ≤ length table.old }
    ensures { result ≡ is_identity n (meet n a.now b.now) }
{
    for x in 0..n {
        let first = first_alike(x, a[x], b[x], table);
        if first as usize != x {
            return false;
        }
    }
    true
}

// `met` becomes its meet with the map at byte `at` of `maps`, and is laid from there on in `suffixes`.
fn meet_back(
    n: usize,
    maps: &[u8],
    at: usize,
    table: &mut [u8],
    met: &mut [u8],
    suffixes: &mut [u8],
)
    requires n_bound { n ≤ 64 }
    requires n_in_bounds { at + n ≤ length maps.now }
    requires in_bounds { 4096 ≤ length table.old }
    requires n_in_bounds_2 { n ≤ length met.old }
    requires n_in_bounds_3 { at + n ≤ length suffixes.old }
    requires canonical { Canonical n (byte (drop at maps.now)) }
    requires canonical_2 { Canonical n (byte met.old) }
    ensures met_after { met.new ≡ written (meet n met.old (drop at maps.now)) met.old }
    ensures suffixes_after { suffixes.new ≡ laid suffixes.old at (meet n met.old (drop at maps.now)) }
{
    meet_with(n, &maps[at..], table, met);
    suffixes[at..at + n].copy_from_slice(&met[..n]);
}

// The meet of the maps from number i on is laid at stretch i of `suffixes`, for every i up to their count. `table` and `met` are working storage.
pub fn suffix_meets(
    n: usize,
    count: usize,
    maps: &[u8],
    table: &mut [u8],
    met: &mut [u8],
    suffixes: &mut [u8],
)
    requires maps_listed { MapsListed n count maps.now }
    requires in_bounds { 4096 ≤ length table.old }
    requires n_in_bounds { n ≤ length met.old }
    requires n_in_bounds_2 { count * n + n ≤ length suffixes.old }
    ensures { SuffixMeets n (map_list n count maps.now) suffixes.new }
{
    whole_into(n, met);
    whole_into(n, &mut suffixes[count * n..]);
    for i in (0..count).rev() {
        meet_back(n, maps, i * n, table, met, suffixes);
    }
}
