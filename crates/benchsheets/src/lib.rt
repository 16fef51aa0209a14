// A bench, eight sheets over one n: made, one of its sheets changed, its sheets tested.
#![tactic(auto)]

ghost use Rattle.std.specs.Prelude.{◌≡◌, ◌<◌, ◌≤◌, length};
ghost use Rattle.equivalence.specs.Equivalence.{identity};
ghost use Rattle.equivalence.specs.Lists.{every};
ghost use Rattle.sheet.specs.Points.{is_faultless};
ghost use Rattle.benchsheets.specs.State.{eight_of, zero_bench, fresh_bench, sheet_of, with_sheet, with_map};

use sheet::Sheet;

// How many sheets a bench has.
pub const SHEETS: usize = 8;

#[derive(Clone, Copy)]
pub struct Bench {
    pub n: usize,
    pub earlier: u64,
    pub sheets: [Sheet; SHEETS],
}

// A bench over n with eight equal sheets, and nothing lost earlier.
fn eight_of(n: usize, sheet: Sheet) -> Bench
    ensures { result ≡ eight_of n sheet }
{
    Bench {
        n,
        earlier: 0,
        sheets: [sheet; SHEETS],
    }
}

// A bench of zeros.
pub fn zeros() -> Bench
    ensures { result ≡ zero_bench }
{
    eight_of(0, sheet::zeros())
}

// A bench over n with the identity, tally 0 and no points on every sheet.
pub fn fresh(n: usize) -> Bench
    requires { n ≤ 64 }
    ensures { result ≡ fresh_bench n }
{
    let zero = sheet::zeros();
    let identity = sheet::with_identity(zero, n);
    eight_of(n, identity)
}

// The bench with another sheet.
pub fn with_sheet(mut bench: Bench, k: usize, sheet: Sheet) -> Bench
    requires { k < 8 }
    ensures { result ≡ with_sheet bench k sheet }
{
    bench.sheets[k] = sheet;
    bench
}

// The bench with the identity on one sheet.
pub fn cleared(bench: Bench, k: usize) -> Bench
    requires n_bound { bench.n ≤ 64 }
    requires k_bound { k < 8 }
    ensures { result ≡ with_map bench k (identity bench.n) }
{
    let old = nth(bench, k);
    let new = sheet::with_identity(old, bench.n);
    with_sheet(bench, k, new)
}

// One of the sheets.
pub fn nth(bench: Bench, k: usize) -> Sheet
    requires { k < 8 }
    ensures { (result ≡ sheet_of bench k) × (k < length bench.sheets) }
{
    bench.sheets[k]
}

// Whether all eight sheets are without fault over n.
pub fn all_faultless(bench: Bench, n: usize) -> bool
    requires { n ≤ 64 }
    ensures { result ≡ every (is_faultless n) bench.sheets }
{
    bench
        .sheets
        .iter()
        .all(|sheet| sheet::is_faultless(n, *sheet))
}
