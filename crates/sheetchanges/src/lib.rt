// Sheets changed where the tests passed: by a point, and by a pair.
#![tactic(auto)]

ghost use Rattle.std.specs.Prelude.{◌≡◌, ◌<◌, take, T, Ok};
ghost use Rattle.equivalence.specs.Equivalence.{is_map};
ghost use Rattle.equivalence.specs.Refusal.{lowest};
ghost use Rattle.algebra.specs.Algebra.{algebra_in};
ghost use Rattle.algebra.specs.Accepted.{Accepted};
ghost use Rattle.sheet.specs.Sheet.{map_on};
ghost use Rattle.sheet.specs.Points.{map_under, with_point, without_point};
ghost use Rattle.benchsheets.specs.State.{sheet_of, with_sheet, with_map};
ghost use Rattle.benchtests.specs.Tests.{set_tests, known_tests};
ghost use Rattle.sheetchanges.specs.InnerGrowth.{MapGrown, SheetGrown};

use benchsheets::Bench;
use sheet::{MAP_BYTES, NAME_BYTES, Sheet};

// The bench with the map of one sheet stored under a name.
pub fn with_point(bench: Bench, k: usize, name: [u8; NAME_BYTES]) -> Bench
    requires { lowest (set_tests bench k name) ≡ Ok tt }
    ensures { result ≡ with_sheet bench k (with_point name (sheet_of bench k)) }
{
    let old = benchsheets::nth(bench, k);
    let new = points::with_point(old, name);
    benchsheets::with_sheet(bench, k, new)
}

// The bench with the map that one sheet has stored under a name on that sheet.
pub fn returned(bench: Bench, k: usize, name: [u8; NAME_BYTES]) -> Bench
    requires { lowest (known_tests bench k name) ≡ Ok tt }
    ensures { result ≡ with_map bench k (map_under bench.n name (sheet_of bench k)) }
{
    let old = benchsheets::nth(bench, k);
    let new = points::returned(old, bench.n, name);
    benchsheets::with_sheet(bench, k, new)
}

// The bench without the point of a name on one sheet.
pub fn without_point(bench: Bench, k: usize, name: [u8; NAME_BYTES]) -> Bench
    requires { lowest (known_tests bench k name) ≡ Ok tt }
    ensures { result ≡ with_sheet bench k (without_point name (sheet_of bench k)) }
{
    let old = benchsheets::nth(bench, k);
    let new = points::without_point(old, name);
    benchsheets::with_sheet(bench, k, new)
}

// A sheet with a larger map, and how many blocks fewer it has.
#[derive(Clone, Copy)]
pub struct Grown {
    pub sheet: Sheet,
    pub lost: usize,
}

// The first n bytes, a map, become the least congruence that holds the map and the pair. Gives how many blocks fewer that has.
fn extend_map(
    n: usize,
    arities: &[u8],
    cells: &[u8],
    x: usize,
    y: usize,
    map: &mut [u8; MAP_BYTES],
) -> usize
    requires accepted { Accepted (algebra_in n arities cells) }
    requires t { T (is_map n (take n map.old)) }
    requires x_lt_n { x < n }
    requires y_lt_n { y < n }
    ensures { MapGrown (algebra_in n arities.entry cells.entry) x y map.old map.new result }
{
    extremal::extended_into(n, arities, cells, x, y, map)
}

// The sheet with the least congruence of the algebra that holds its map and the pair.
pub fn extended(sheet: Sheet, n: usize, arities: &[u8], cells: &[u8], x: usize, y: usize) -> Grown
    requires accepted { Accepted (algebra_in n arities cells) }
    requires t { T (is_map n (map_on n sheet)) }
    requires x_lt_n { x < n }
    requires y_lt_n { y < n }
    ensures { SheetGrown (algebra_in n arities.entry cells.entry) x y sheet result.sheet result.lost }
{
    let mut map = sheet.map;
    let lost = extend_map(n, arities, cells, x, y, &mut map);
    let next = Sheet { map, ..sheet };
    Grown { sheet: next, lost }
}
