// The bench: eight sheets for class work over one n, each with a map, a tally of the blocks that it lost, and points to go back to; and what the bench
// lost before its sheets had tallies, which no call but Start alters.
// A bench is a value: it goes into a call and comes back beside the answer. Any bench is legal, also one that no call here gave.
#![tactic(auto)]

ghost use Rattle.std.specs.Prelude.{◌≡◌, [], ◌∷◌, ◌+◌, ◌<◌, ◌≤◌, Ok, IfOk, MatchResult};
ghost use Rattle.equivalence.specs.Refusal.{lowest};
ghost use Rattle.algebra.specs.Algebra.{algebra_in};
ghost use Rattle.sheet.specs.Sheet.{raised_by};
ghost use Rattle.benchsheets.specs.State.{with_sheet};
ghost use Rattle.benchtests.specs.Tests.{handed_tests};
ghost use Rattle.bench.specs.Calls.{tally_test, benched, start_call, add_call, clear_call, set_call, return_call, forget_call};

pub use benchsheets::{Bench, SHEETS};
use equivalence::Refusal;
use sheet::{NAME_BYTES, Sheet};

// What a call gives back: its answer, and the bench after it, of any kind.
#[derive(Clone, Copy)]
pub struct Benched<B> {
    pub answer: Result<(), Refusal>,
    pub bench: B,
}

impl<B: Copy> Benched<B> {
    // By what the tests found: the new bench where they pass, else the other.
    pub fn by<F: FnOnce() -> B>(check: Result<(), Refusal>, other: B, new: F) -> Benched<B>
        requires { IfOk check (λ _. F.pre new) }
        ensures answer { result.answer ≡ check }
        ensures bench { MatchResult check (λ _. F.post new result.bench) (λ _. result.bench ≡ other) }
    {
        let bench = match check {
            Ok(()) => new(),
            Err(_) => other,
        };
        Benched {
            answer: check,
            bench,
        }
    }
}

// A bench over n: every sheet has the identity, tally 0 and no points, and nothing was lost earlier. Refused, a bench of zeros.
pub fn start(n: usize) -> Benched<Bench>
    ensures { result ≡ start_call n }
{
    // No `Benched::by`: the zeros would be made on every call.
    match benchtests::start_check(n) {
        Ok(()) => Benched {
            answer: Ok(()),
            bench: benchsheets::fresh(n),
        },
        Err(reason) => Benched {
            answer: Err(reason),
            bench: benchsheets::zeros(),
        },
    }
}

// The bench with a new sheet whose tally is raised, or 13.
fn raised(bench: Bench, k: usize, sheet: Sheet, lost: usize) -> Benched<Bench>
    requires k_bound { k < 8 }
    requires lost_bound { lost ≤ 64 }
    ensures { result ≡ benched (tally_test (sheet.tally + lost) ∷ []) (with_sheet bench k (raised_by lost sheet)) bench }
{
    let left = u64::MAX - sheet.tally;
    if lost as u64 > left {
        return Benched {
            answer: Err(Refusal::Tally),
            bench,
        };
    }
    let tally = sheet.tally + lost as u64;
    let next = Sheet { tally, ..sheet };
    Benched {
        answer: Ok(()),
        bench: benchsheets::with_sheet(bench, k, next),
    }
}

// Add where none of reasons 1 to 8 applies.
fn extend(
    bench: Bench,
    n: usize,
    arities: &[u8],
    cells: &[u8],
    k: usize,
    x: usize,
    y: usize,
) -> Benched<Bench>
    requires { lowest (handed_tests bench (algebra_in n arities cells) k x y) ≡ Ok tt }
    ensures { result ≡ add_call bench (algebra_in n arities.entry cells.entry) k x y }
{
    let old = benchsheets::nth(bench, k);
    let grown = sheetchanges::extended(old, n, arities, cells, x, y);
    let new = grown.sheet;
    raised(bench, k, new, grown.lost)
}

// The sheet becomes the least congruence of the algebra that holds its old map and the pair; its tally rises by the blocks lost.
pub fn add(
    bench: Bench,
    n: usize,
    arities: &[u8],
    cells: &[u8],
    sheet: usize,
    x: usize,
    y: usize,
) -> Benched<Bench>
    ensures { result ≡ add_call bench (algebra_in n arities.entry cells.entry) sheet x y }
{
    // No `Benched::by`: where these tests pass, 13 may still apply.
    match benchtests::handed_check(bench, n, arities, cells, sheet, x, y) {
        Ok(()) => extend(bench, n, arities, cells, sheet, x, y),
        Err(reason) => Benched {
            answer: Err(reason),
            bench,
        },
    }
}

// The sheet gets the identity; its tally stays.
pub fn clear(bench: Bench, sheet: usize) -> Benched<Bench>
    ensures { result ≡ clear_call bench sheet }
{
    // No `Benched::by`: it would copy the bench once more.
    match benchtests::clear_check(bench, sheet) {
        Ok(()) => Benched {
            answer: Ok(()),
            bench: benchsheets::cleared(bench, sheet),
        },
        Err(reason) => Benched {
            answer: Err(reason),
            bench,
        },
    }
}

// The sheet's map is stored under the name; an older point of that name is replaced.
pub fn set_point(bench: Bench, sheet: usize, name: [u8; NAME_BYTES]) -> Benched<Bench>
    ensures { result ≡ set_call bench sheet name }
{
    let check = benchtests::set_check(bench, sheet, name);
    Benched::by(
        check,
        bench,
        || sheetchanges::with_point(bench, sheet, name),
    )
}

// The sheet gets the map that is stored under the name; the point and the sheet's tally stay.
pub fn return_to(bench: Bench, sheet: usize, name: [u8; NAME_BYTES]) -> Benched<Bench>
    ensures { result ≡ return_call bench sheet name }
{
    let check = benchtests::known_check(bench, sheet, name);
    Benched::by(check, bench, || sheetchanges::returned(bench, sheet, name))
}

// The sheet holds the point of the name no more; its place serves the next new name.
pub fn forget(bench: Bench, sheet: usize, name: [u8; NAME_BYTES]) -> Benched<Bench>
    ensures { result ≡ forget_call bench sheet name }
{
    let check = benchtests::known_check(bench, sheet, name);
    Benched::by(
        check,
        bench,
        || sheetchanges::without_point(bench, sheet, name),
    )
}
