// The tests of the bench's calls, by rising number; 13 is Add's own, since it needs the congruence.
#![tactic(auto)]

ghost use Rattle.std.specs.Prelude.{◌≡◌, [], ◌∷◌, ◌≤◌};
ghost use Rattle.equivalence.specs.Refusal.{lowest};
ghost use Rattle.algebra.specs.Algebra.{algebra_in};
ghost use Rattle.benchtests.specs.Tests.{start_tests, bench_test, clear_tests, place_tests, handed_tests, set_tests, known_tests};

use benchsheets::{Bench, SHEETS};
use equivalence::Refusal;
use sheet::NAME_BYTES;

// Start's: 1.
pub fn start_check(n: usize) -> Result<(), Refusal>
    ensures { result ≡ lowest (start_tests n) }
{
    if !equivalence::checks::is_size(n) {
        return Err(Refusal::Size);
    }
    Ok(())
}

// 8: all eight sheets are looked at, whichever the call names.
fn bench_check(bench: Bench, n: usize) -> Result<(), Refusal>
    requires { n ≤ 64 }
    ensures { result ≡ lowest (bench_test n bench ∷ []) }
{
    if bench.n != n || !benchsheets::all_faultless(bench, n) {
        return Err(Refusal::NotMap);
    }
    Ok(())
}

// Clear's: 1, 7 and 8.
pub fn clear_check(bench: Bench, sheet: usize) -> Result<(), Refusal>
    ensures { result ≡ lowest (clear_tests bench sheet) }
{
    let n = bench.n;
    if !equivalence::checks::is_size(n) {
        return Err(Refusal::Size);
    }
    if sheet >= SHEETS {
        return Err(Refusal::Range);
    }
    bench_check(bench, n)
}

// Set's: 1, 7, 8 and 16.
pub fn set_check(bench: Bench, k: usize, name: [u8; NAME_BYTES]) -> Result<(), Refusal>
    ensures { result ≡ lowest (set_tests bench k name) }
{
    clear_check(bench, k)?;
    let sheet = benchsheets::nth(bench, k);
    if sheet::points::is_full_for(sheet, name) {
        return Err(Refusal::PointsFull);
    }
    Ok(())
}

// Return's and Forget's: 1, 7, 8 and 15.
pub fn known_check(bench: Bench, k: usize, name: [u8; NAME_BYTES]) -> Result<(), Refusal>
    ensures { result ≡ lowest (known_tests bench k name) }
{
    clear_check(bench, k)?;
    let sheet = benchsheets::nth(bench, k);
    if !sheet::points::is_held(sheet, name) {
        return Err(Refusal::UnknownName);
    }
    Ok(())
}

// Add's 7 and 8, for an n that 1 does not decline.
fn place_check(bench: Bench, n: usize, sheet: usize, x: usize, y: usize) -> Result<(), Refusal>
    requires { n ≤ 64 }
    ensures { result ≡ lowest (place_tests bench n sheet x y) }
{
    if sheet >= SHEETS || x >= n || y >= n {
        return Err(Refusal::Range);
    }
    bench_check(bench, n)
}

// Add's of what it is handed: all but 13, which needs the congruence.
pub fn handed_check(
    bench: Bench,
    n: usize,
    arities: &[u8],
    cells: &[u8],
    sheet: usize,
    x: usize,
    y: usize,
) -> Result<(), Refusal>
    ensures { result ≡ lowest (handed_tests bench (algebra_in n arities.entry cells.entry) sheet x y) }
{
    algebra::check(n, arities, cells)?;
    place_check(bench, n, sheet, x, y)
}
