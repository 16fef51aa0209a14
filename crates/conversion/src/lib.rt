// The conversion of a bench of the third kind into today's.
#![tactic(auto)]

ghost use Rattle.std.specs.Prelude.{◌≡◌};
ghost use Rattle.conversion.specs.Conversion.{untallied, with_tallies, convert_v3_call};

use bench::{Bench, Benched};
use oldbenches::{BenchV3, SheetV3};
use sheet::Sheet;

// A sheet with an old one's map and points, and tally 0. No From, nor for the bench: neither type is declared in this crate.
fn untallied(old: SheetV3) -> Sheet
    ensures { result ≡ untallied old }
{
    let SheetV3 { map, count, points } = old;
    Sheet {
        map,
        tally: 0,
        count,
        points,
    }
}

// A bench with all that one of the third kind holds: its total was lost earlier.
fn with_tallies(old: BenchV3) -> Bench
    ensures { result ≡ with_tallies old }
{
    let BenchV3 { n, tally, sheets } = old;
    Bench {
        n,
        earlier: tally,
        sheets: sheets.map(untallied),
    }
}

// The old bench's n, maps and points, every byte of them; its total was lost earlier, and the eight tallies begin at 0. Refused, a bench of zeros.
pub fn convert_v3(old: BenchV3) -> Benched<Bench>
    ensures { result ≡ convert_v3_call old }
{
    let bench = with_tallies(old);
    // No `Benched::by`: the zeros would be made on every call.
    match benchtests::clear_check(bench, 0) {
        Ok(()) => Benched {
            answer: Ok(()),
            bench,
        },
        Err(reason) => Benched {
            answer: Err(reason),
            bench: benchsheets::zeros(),
        },
    }
}
