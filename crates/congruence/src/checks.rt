// The tests of each service, by rising number: the first that applies is the answer. Decompose has none but the algebra's before it looks for factors.
ghost use Rattle.std.specs.Prelude.{◌≡◌, ℕ, ◌*◌, ◌<◌, ◌≤◌, length, get_or};
ghost use Rattle.equivalence.specs.Lists.{every};
ghost use Rattle.equivalence.specs.Equivalence.{is_map, blocks};
ghost use Rattle.equivalence.specs.Refusal.{lowest};
ghost use Rattle.algebra.specs.Algebra.{algebra_in, cell_count};
ghost use Rattle.congruence.specs.Calls.{generate_tests, contained_tests, separate_tests, quotient_tests, certify_tests};
ghost use Rattle.maplist.specs.InnerMapLists.{map_list};

use equivalence::Refusal;
use equivalence::checks::all_below;

// The longest list of maps that Certify looks at.
const MAX_MAPS: usize = 63;

// Generate's tests.
pub fn generate_check(
    n: usize,
    arities: &[u8],
    cells: &[u8],
    pairs: &[u8],
    room: usize,
) -> Result<(), Refusal>
    ensures { result ≡ lowest (generate_tests (algebra_in n arities.entry cells.entry) pairs.now room) }
{
    algebra::check(n, arities, cells)?;
    if pairs.len() % 2 != 0 {
        return Err(Refusal::Range);
    }
    if !all_below(n, pairs) {
        return Err(Refusal::Range);
    }
    if room < n {
        return Err(Refusal::Space);
    }
    Ok(())
}

// Contained's tests.
pub fn contained_check(
    n: usize,
    arities: &[u8],
    cells: &[u8],
    map: &[u8],
    room: usize,
) -> Result<(), Refusal>
    ensures { result ≡ lowest (contained_tests (algebra_in n arities.entry cells.entry) map.now room) }
{
    algebra::check(n, arities, cells)?;
    if !equivalence::map::is_map(n, map) {
        return Err(Refusal::NotMap);
    }
    if room < n {
        return Err(Refusal::Space);
    }
    Ok(())
}

// Separate's tests.
pub fn separate_check(
    n: usize,
    arities: &[u8],
    cells: &[u8],
    v: usize,
    w: usize,
    room: usize,
) -> Result<(), Refusal>
    ensures { result ≡ lowest (separate_tests (algebra_in n arities.entry cells.entry) v w room) }
{
    algebra::check(n, arities, cells)?;
    if n <= v {
        return Err(Refusal::Range);
    }
    if n <= w {
        return Err(Refusal::Range);
    }
    if room < n {
        return Err(Refusal::Space);
    }
    if v == w {
        return Err(Refusal::Equal);
    }
    Ok(())
}

// How many cells the quotient's tables have together.
fn quotient_cells(n: usize, arities: &[u8], map: &[u8]) -> usize
    requires n_bound { n ≤ 64 }
    requires arities_len_bound { length arities.now ≤ 16 }
    requires by_index { (i : ℕ) → i < length arities.now → get_or arities.now i 0 ≤ 3 }
    requires n_in_bounds { n ≤ length map.now }
    ensures { result ≡ cell_count (blocks n map.now) arities.now }
{
    algebra::cell_count(equivalence::map::block_count(n, map), arities)
}

// Quotient's tests. Space is measured by the number of blocks of the given map, whether it is a congruence or not.
pub fn quotient_check(
    n: usize,
    arities: &[u8],
    cells: &[u8],
    map: &[u8],
    room: usize,
) -> Result<(), Refusal>
    ensures { result ≡ lowest (quotient_tests (algebra_in n arities.entry cells.entry) map.now room) }
{
    algebra::check(n, arities, cells)?;
    if !equivalence::map::is_map(n, map) {
        return Err(Refusal::NotMap);
    }
    if room < quotient_cells(n, arities, map) {
        return Err(Refusal::Space);
    }
    if !likeness::is_congruence(n, arities, cells, map) {
        return Err(Refusal::NotCongruence);
    }
    Ok(())
}

// Whether each of the first `count` stretches of n bytes is a map.
fn all_maps(n: usize, count: usize, maps: &[u8]) -> bool
    requires { count * n ≤ length maps.now }
    ensures { result ≡ every (is_map n) (map_list n count maps.now) }
{
    for i in 0..count {
        let at = i * n;
        if !equivalence::map::is_map(n, &maps[at..at + n]) {
            return false;
        }
    }
    true
}

// Certify's tests.
pub fn certify_check(n: usize, arities: &[u8], cells: &[u8], maps: &[u8]) -> Result<(), Refusal>
    ensures { result ≡ lowest (certify_tests (algebra_in n arities.entry cells.entry) maps.now) }
{
    algebra::check(n, arities, cells)?;
    if maps.len() % n != 0 {
        return Err(Refusal::NotMap);
    }
    let count = maps.len() / n;
    if MAX_MAPS < count {
        return Err(Refusal::NotMap);
    }
    if !all_maps(n, count, maps) {
        return Err(Refusal::NotMap);
    }
    Ok(())
}
