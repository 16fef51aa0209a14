// Certify's fourth condition: a congruence is maximal for some pair just where it has two blocks or more and its quotient is irreducible, that is, where
// gathering on the quotient ends in a pair. Working storage: a quotient's tables, the table for meets, a meet, and 63 maps.
ghost use Rattle.std.specs.Prelude.{◌≡◌, not, ◌&&◌, ◌≤◌, T};
ghost use Rattle.equivalence.specs.Lists.{every, any};
ghost use Rattle.equivalence.specs.Equivalence.{is_map, blocks};
ghost use Rattle.pairorder.specs.Order.{pairs};
ghost use Rattle.algebra.specs.Algebra.{algebra_in};
ghost use Rattle.algebra.specs.Accepted.{Accepted};
ghost use Rattle.algebra.specs.Congruence.{Congruence, is_congruence};
ghost use Rattle.quotient.specs.Quotient.{quotient};
ghost use Rattle.theory.specs.Certify.{is_maximal_for};
ghost use Rattle.theory.specs.Decompose.{reducible};
ghost use Rattle.maplist.specs.InnerMapLists.{map_list, MapsListed};

use algebra::{MAX_CELLS, cell_count};
use equivalence::map::block_count;
use gathering::gather::{Collected, gather};
use quotient::divide;

// Working storage: a quotient's tables, the table for meets, a meet, and 63 maps.
#[derive(Drop)]
struct Storage {
    tables: [u8; MAX_CELLS],
    table: [u8; 4096],
    met: [u8; 64],
    maps: [u8; 4032],
}

// Whether the quotient by a congruence of two blocks or more is irreducible.
fn divides_irreducibly(
    n: usize,
    arities: &[u8],
    cells: &[u8],
    map: &[u8],
    storage: &mut Storage,
) -> bool
    requires accepted { Accepted (algebra_in n arities cells) }
    requires congruence { Congruence (algebra_in n arities cells) map.now }
    requires bound { 2 ≤ blocks n map.now }
    ensures { result ≡ not (reducible (quotient (algebra_in n arities.entry cells.entry) map.now)) }
{
    let Storage {
        tables,
        table,
        met,
        maps,
    } = storage;
    let b = usize::from(divide(n, arities, cells, map, tables));
    let count = cell_count(b, arities);
    match gather(b, arities, &tables[..count], table, met, maps) {
        Collected::Joined(_, _) => true,
        Collected::All(_) => false,
    }
}

// Whether the congruence holds some pair apart that every strictly larger one joins. One of one block holds nothing apart, and one of two blocks has
// only *all* above it.
fn is_maximal(n: usize, arities: &[u8], cells: &[u8], map: &[u8], storage: &mut Storage) -> bool
    requires accepted { Accepted (algebra_in n arities cells) }
    requires congruence { Congruence (algebra_in n arities cells) map.now }
    ensures { result ≡ any (is_maximal_for (algebra_in n arities.entry cells.entry) map.now) (pairs n) }
{
    let b = block_count(n, map);
    if b < 2 {
        return false;
    }
    if b < 3 {
        return true;
    }
    divides_irreducibly(n, arities, cells, map, storage)
}

// Whether every congruence of the list holds some pair apart that every strictly larger one joins.
pub fn all_maximal(n: usize, arities: &[u8], cells: &[u8], count: usize, listed: &[u8]) -> bool
    requires accepted { Accepted (algebra_in n arities cells) }
    requires maps_listed { MapsListed n count listed.now }
    requires t { T (every (λ m. is_map n m && is_congruence (algebra_in n arities cells) m) (map_list n count listed.now)) }
    ensures { result ≡ every (λ m. any (is_maximal_for (algebra_in n arities.entry cells.entry) m) (pairs n)) (map_list n count listed.now) }
{
    let mut storage = Storage {
        tables: [0; MAX_CELLS],
        table: [0; 4096],
        met: [0; 64],
        maps: [0; 4032],
    };
    // Not one function with `all_congruences`, over the test: this one writes working storage, and a closure that does leaves a proof nothing of it.
    for i in 0..count {
        let at = i * n;
        if !is_maximal(n, arities, cells, &listed[at..at + n], &mut storage) {
            return false;
        }
    }
    true
}
