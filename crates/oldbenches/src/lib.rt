// Benches of older kinds, which no call takes but the conversion into the next kind; an older bench goes through the conversions in turn. Here are those into the second
// and the third kind; `conversion` has the one into today's.
#![tactic(auto)]

ghost use Rattle.std.specs.Prelude.{◌≡◌, ◌≤◌, take};
ghost use Rattle.equivalence.specs.Equivalence.{is_map};
ghost use Rattle.equivalence.specs.Lists.{every};
ghost use Rattle.equivalence.specs.Refusal.{lowest};
ghost use Rattle.oldbenches.specs.OldKinds.{convert_tests, widened, zero_bench_v2, convert_v1_call, zero_sheet_v3, unpointed, without_points, zero_bench_v3, convert_v2_call};

use bench::{Benched, SHEETS};
use equivalence::Refusal;
use sheet::{MAP_BYTES, NAME_BYTES, PLACES, Point, Sheet};

// A sheet of the first two kinds: a map alone. The kinds are types of their own: of one generic type the first two would be the same record in specs/, and no function
// serves two kinds.
#[derive(Clone, Copy)]
pub struct SheetV1 {
    pub map: [u8; MAP_BYTES],
}

// The first kind: its tally has 32 bits.
#[derive(Clone, Copy)]
pub struct BenchV1 {
    pub n: usize,
    pub tally: u32,
    pub sheets: [SheetV1; SHEETS],
}

// The second kind: its sheets have no points.
#[derive(Clone, Copy)]
pub struct BenchV2 {
    pub n: usize,
    pub tally: u64,
    pub sheets: [SheetV1; SHEETS],
}

// A sheet of the third kind: a map and points.
#[derive(Clone, Copy)]
pub struct SheetV3 {
    pub map: [u8; MAP_BYTES],
    pub count: usize,
    pub points: [Point; PLACES],
}

// The third kind: one tally for all its sheets.
#[derive(Clone, Copy)]
pub struct BenchV3 {
    pub n: usize,
    pub tally: u64,
    pub sheets: [SheetV3; SHEETS],
}

// Whether all eight old sheets have maps over n.
fn all_have_maps(n: usize, old: [SheetV1; SHEETS]) -> bool
    requires { n ≤ 64 }
    ensures { result ≡ every (λ s. is_map n (take n s.map)) old }
{
    old.iter().all(|sheet| sheet::has_map(n, &sheet.map))
}

// A conversion's tests: 1 and 8.
fn convert_check(n: usize, old: [SheetV1; SHEETS]) -> Result<(), Refusal>
    ensures { result ≡ lowest (convert_tests n old) }
{
    if !equivalence::checks::is_size(n) {
        return Err(Refusal::Size);
    }
    if !all_have_maps(n, old) {
        return Err(Refusal::NotMap);
    }
    Ok(())
}

// A bench of the second kind with all that one of the first holds.
impl From<BenchV1> for BenchV2 {
    ghost from_gives = { λ old new. new ≡ widened old };

    fn from(old: BenchV1) -> BenchV2 {
        let BenchV1 { n, tally, sheets } = old;
        BenchV2 {
            n,
            tally: u64::from(tally),
            sheets,
        }
    }
}

// A bench of the second kind of zeros.
fn zeros_v2() -> BenchV2
    ensures { result ≡ zero_bench_v2 }
{
    let zero = SheetV1 {
        map: [0u8; MAP_BYTES],
    };
    BenchV2 {
        n: 0,
        tally: 0,
        sheets: [zero; SHEETS],
    }
}

// The old bench's n, tally and sheets, every byte of them. Refused, a bench of zeros.
pub fn convert_v1(old: BenchV1) -> Benched<BenchV2>
    ensures { result ≡ convert_v1_call old }
{
    let check = convert_check(old.n, old.sheets);
    Benched::by(check, zeros_v2(), || BenchV2::from(old))
}

// A sheet of the third kind of zeros.
fn zero_sheet_v3() -> SheetV3
    ensures { result ≡ zero_sheet_v3 }
{
    let map = [0u8; MAP_BYTES];
    let point = Point {
        name: [0u8; NAME_BYTES],
        map,
    };
    SheetV3 {
        map,
        count: 0,
        points: [point; PLACES],
    }
}

// A bench of the third kind of zeros.
fn zeros_v3() -> BenchV3
    ensures { result ≡ zero_bench_v3 }
{
    BenchV3 {
        n: 0,
        tally: 0,
        sheets: [zero_sheet_v3(); SHEETS],
    }
}

// A sheet with an old one's map and no points.
impl From<SheetV1> for SheetV3 {
    ghost from_gives = { λ old new. new ≡ unpointed old };

    fn from(old: SheetV1) -> SheetV3 {
        let map = old.map;
        SheetV3 {
            map,
            ..zero_sheet_v3()
        }
    }
}

// Today's sheet without its tally.
impl From<Sheet> for SheetV3 {
    ghost from_gives = { λ old new. new ≡ record { map = old.map; count = old.count; points = old.points } };

    fn from(old: Sheet) -> SheetV3 {
        let Sheet {
            map,
            count,
            points,
            ..
        } = old;
        SheetV3 { map, count, points }
    }
}

// A bench of the third kind with all that one of the second holds, and no points.
impl From<BenchV2> for BenchV3 {
    ghost from_gives = { λ old new. new ≡ without_points old };

    fn from(old: BenchV2) -> BenchV3 {
        let BenchV2 { n, tally, sheets } = old;
        BenchV3 {
            n,
            tally,
            sheets: sheets.map(SheetV3::from),
        }
    }
}

// The old bench's n, tally and maps, every byte of them, and no points. Refused, a bench of zeros.
pub fn convert_v2(old: BenchV2) -> Benched<BenchV3>
    ensures { result ≡ convert_v2_call old }
{
    let check = convert_check(old.n, old.sheets);
    Benched::by(check, zeros_v3(), || BenchV3::from(old))
}
