// Decompose of an accepted algebra: congruences are gathered, those not needed are dropped, and what is left is written where it has room. Working
// storage: 63 maps, the meets of 64 suffixes, the table for meets, one meet, and the numbers of the maps that are needed.
#![tactic(auto)]

ghost use Rattle.std.specs.Prelude.{[], ◌≡◌, ◌-◌, ◌≤◌, length};
ghost use Rattle.algebra.specs.Algebra.{algebra_in};
ghost use Rattle.algebra.specs.Accepted.{Accepted};
ghost use Rattle.theory.specs.Decompose.{pruned};
ghost use Rattle.maplist.specs.InnerMapLists.{map_list, MapsListed};
ghost use Rattle.decomposition.specs.InnerFactored.{listed_in, found_in};

use crate::write::write_if_room;
use equivalence::{Element, Refusal};
use gathering::gather::{Collected, gather};
use lattice::meets::NAME_PAIRS;
use pruning::mark_needed;

mod write;

// What Decompose answers: how many factors it wrote; or reason 11, with the first pair common to all congruences but the identity.
#[derive(Debug, Clone, Copy, PartialEq, Eq)]
pub enum Decomposed {
    Factors(u8),
    Irreducible(Element, Element),
}

// Of the first `count` maps those that are needed: they are written where the list has room for them. `table` and `met` are working storage.
fn list_needed(
    n: usize,
    count: usize,
    maps: &[u8],
    table: &mut [u8],
    met: &mut [u8],
    out: &mut [u8],
) -> Result<Decomposed, Refusal>
    requires maps_listed { MapsListed n count maps.now }
    requires count_bound { count ≤ n - 1 }
    requires in_bounds { 4096 ≤ length table.old }
    requires n_in_bounds { n ≤ length met.old }
    ensures { (result, out.new) ≡ listed_in n (pruned n [] (map_list n count maps.now)) out.old }
{
    let mut suffixes = [0u8; 4096];
    let mut needed = [0u8; 64];
    let kept = mark_needed(n, count, maps, &mut suffixes, table, met, &mut needed);
    write_if_room(n, maps, kept, &needed, out)
}

// The factors go to the start of out, one map after the other, and their count is the answer, where so many bytes are lent. An irreducible algebra is
// answered with its pair, 0 and 0 for n = 1, whatever is lent. Where fewer bytes are lent than the factors take, that is 9. Nothing is written but the
// factors.
pub fn factors(
    n: usize,
    arities: &[u8],
    cells: &[u8],
    out: &mut [u8],
) -> Result<Decomposed, Refusal>
    requires { Accepted (algebra_in n arities cells) }
    ensures { (result, out.new) ≡ found_in (algebra_in n arities.entry cells.entry) out.old }
{
    if n < 2 {
        return Ok(Decomposed::Irreducible(Element(0), Element(0)));
    }
    let mut maps = [0u8; 4032];
    let mut table = [0u8; NAME_PAIRS];
    let mut met = [0u8; 64];
    match gather(n, arities, cells, &mut table, &mut met, &mut maps) {
        Collected::Joined(x, y) => Ok(Decomposed::Irreducible(x, y)),
        Collected::All(count) => list_needed(n, count, &maps, &mut table, &mut met, out),
    }
}
