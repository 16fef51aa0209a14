// A bench as 5,201 bytes, its image: eight maps of 64 bytes, the bench's n, the tallies of the sheets, what was lost earlier; then for each sheet how many
// points it holds, and its eight places, a name and a map each. Benches of older kinds have one tally where today's have nine numbers: one of the third kind
// has 5,137 bytes; one of the second, which has no points, 521; one of the first, whose tally is shorter, 517.
#![tactic(auto)]

ghost use Rattle.std.specs.Prelude.{◌≡◌, ◌+◌, ◌≤◌, ◌<◌, length};
ghost use Rattle.equivalence.specs.Lists.{concat};
ghost use Rattle.imagepart.specs.InnerSteps.{Laid};
ghost use Rattle.image.specs.Image.{tallies_of, points_v3_of, image_of, image_v3_of, image_v2_of};
ghost use Rattle.image.specs.Image.{sheet_v3_in, tallied, sheet_in, sheet_v1_in, bench_in, bench_v3_in, bench_v2_in, bench_v1_in};

use benchsheets::{Bench, SHEETS};
use oldbenches::{BenchV1, BenchV2, BenchV3, SheetV1, SheetV3};
use sheet::{MAP_BYTES, Sheet};
use std::array;

pub const LENGTH: usize = 5201;

pub const LENGTH_V3: usize = 5137;

pub const LENGTH_V2: usize = 521;

pub const LENGTH_V1: usize = 517;

// Where n begins, and behind it the tally, or the tallies; how many bytes a tally has, and had in the first kind.
const SIZE_AT: usize = 512;

const TALLY_AT: usize = 513;

const TALLY_BYTES: usize = 8;

const TALLY_BYTES_V1: usize = 4;

// Where what was lost earlier begins.
const EARLIER_AT: usize = 577;

// Where the points of the first sheet begin, and began in the third kind; how many bytes the points of a sheet have.
const POINTS_AT: usize = 585;

const POINTS_AT_V3: usize = 521;

const POINTS_BYTES: usize = 577;

// A sheet of the third kind with a tally. No From: it takes the tally besides.
fn tallied(tally: u64, sheet: SheetV3) -> Sheet
    ensures { result ≡ tallied tally sheet }
{
    let SheetV3 { map, count, points } = sheet;
    Sheet {
        map,
        tally,
        count,
        points,
    }
}

// Sheet s without its tally, where the points of the sheets begin at `from`.
fn read_sheet_v3(bytes: &[u8], from: usize, s: usize) -> SheetV3
    requires le_from { 512 ≤ from }
    requires from_in_bounds { from + 4616 ≤ length bytes.now }
    requires s_bound { s < 8 }
    ensures { result ≡ sheet_v3_in from bytes.now s }
{
    let map = imagepart::read_map_of(bytes, s);
    let at = from + s * POINTS_BYTES;
    let count = imagepart::read_little(bytes, at, 1) as usize;
    let points = imagepart::read_places(bytes, at + 1);
    SheetV3 { map, count, points }
}

// Sheet s.
fn read_sheet(bytes: &[u8], s: usize) -> Sheet
    requires bytes_len { length bytes.now ≡ 5201 }
    requires s_bound { s < 8 }
    ensures { result ≡ sheet_in bytes.now s }
{
    let tally = imagepart::read_little(bytes, TALLY_AT + s * TALLY_BYTES, TALLY_BYTES);
    let sheet = read_sheet_v3(bytes, POINTS_AT, s);
    tallied(tally, sheet)
}

// Sheet s of the first two kinds.
fn read_sheet_v1(bytes: &[u8], s: usize) -> SheetV1
    requires bytes_len { 512 ≤ length bytes.now }
    requires s_bound { s < 8 }
    ensures { result ≡ sheet_v1_in bytes.now s }
{
    let map = imagepart::read_map_of(bytes, s);
    SheetV1 { map }
}

// The bench that the image shows.
pub fn read(bytes: &[u8]) -> Bench
    requires { length bytes.now ≡ 5201 }
    ensures { result ≡ bench_in bytes.now }
{
    let sheets = array::from_fn(|s| read_sheet(bytes, s));
    let n = imagepart::read_little(bytes, SIZE_AT, 1) as usize;
    let earlier = imagepart::read_little(bytes, EARLIER_AT, TALLY_BYTES);
    Bench { n, earlier, sheets }
}

// The bench of the third kind that the image shows.
pub fn read_v3(bytes: &[u8]) -> BenchV3
    requires { length bytes.now ≡ 5137 }
    ensures { result ≡ bench_v3_in bytes.now }
{
    let sheets = array::from_fn(|s| read_sheet_v3(bytes, POINTS_AT_V3, s));
    let n = imagepart::read_little(bytes, SIZE_AT, 1) as usize;
    let tally = imagepart::read_little(bytes, TALLY_AT, TALLY_BYTES);
    BenchV3 { n, tally, sheets }
}

// The bench of the second kind that the image shows.
pub fn read_v2(bytes: &[u8]) -> BenchV2
    requires { length bytes.now ≡ 521 }
    ensures { result ≡ bench_v2_in bytes.now }
{
    let sheets = array::from_fn(|s| read_sheet_v1(bytes, s));
    let n = imagepart::read_little(bytes, SIZE_AT, 1) as usize;
    let tally = imagepart::read_little(bytes, TALLY_AT, TALLY_BYTES);
    BenchV2 { n, tally, sheets }
}

// The bench of the first kind that the image shows.
pub fn read_v1(bytes: &[u8]) -> BenchV1
    requires { length bytes.now ≡ 517 }
    ensures { result ≡ bench_v1_in bytes.now }
{
    let sheets = array::from_fn(|s| read_sheet_v1(bytes, s));
    let n = imagepart::read_little(bytes, SIZE_AT, 1) as usize;
    let tally = imagepart::read_little(bytes, TALLY_AT, TALLY_BYTES_V1) as u32;
    BenchV1 { n, tally, sheets }
}

// Writes the maps of eight sheets.
fn write_maps(maps: [[u8; MAP_BYTES]; SHEETS], bytes: &mut [u8])
    requires { 512 ≤ length bytes.old }
    ensures { Laid 512 (concat maps) 0 bytes.old bytes.new }
{
    for (s, map) in maps.iter().enumerate() {
        imagepart::lay_map_of(map, bytes, s);
    }
}

// Writes the tallies of eight sheets.
fn write_tallies(sheets: [Sheet; SHEETS], bytes: &mut [u8])
    requires { 577 ≤ length bytes.old }
    ensures { Laid 64 (tallies_of sheets) 513 bytes.old bytes.new }
{
    for (s, sheet) in sheets.iter().enumerate() {
        imagepart::write_little(sheet.tally, TALLY_BYTES, bytes, TALLY_AT + s * TALLY_BYTES);
    }
}

// Writes the points of eight sheets from `from` on.
fn write_points(sheets: [SheetV3; SHEETS], bytes: &mut [u8], from: usize)
    requires { from + 4616 ≤ length bytes.old }
    ensures { Laid 4616 (points_v3_of sheets) from bytes.old bytes.new }
{
    for (s, sheet) in sheets.iter().enumerate() {
        imagepart::lay_points(sheet.count, sheet.points, bytes, from + s * POINTS_BYTES);
    }
}

// Writes the image of a bench.
pub fn write(bench: Bench, bytes: &mut [u8])
    requires { length bytes.old ≡ 5201 }
    ensures { bytes.new ≡ image_of bench }
{
    let sheets = bench.sheets;
    let maps = sheets.map(
        |sheet: Sheet| -> [u8; MAP_BYTES]
            ensures { result ≡ sheet.map }
        { sheet.map },
    );
    write_maps(maps, bytes);
    imagepart::write_little(bench.n as u64, 1, bytes, SIZE_AT);
    write_tallies(sheets, bytes);
    imagepart::write_little(bench.earlier, TALLY_BYTES, bytes, EARLIER_AT);
    write_points(sheets.map(SheetV3::from), bytes, POINTS_AT);
}

// Writes the image of a bench of the third kind.
pub fn write_v3(bench: BenchV3, bytes: &mut [u8])
    requires { length bytes.old ≡ 5137 }
    ensures { bytes.new ≡ image_v3_of bench }
{
    let sheets = bench.sheets;
    let maps = sheets.map(
        |sheet: SheetV3| -> [u8; MAP_BYTES]
            ensures { result ≡ sheet.map }
        { sheet.map },
    );
    write_maps(maps, bytes);
    imagepart::write_little(bench.n as u64, 1, bytes, SIZE_AT);
    imagepart::write_little(bench.tally, TALLY_BYTES, bytes, TALLY_AT);
    write_points(sheets, bytes, POINTS_AT_V3);
}

// Writes the image of a bench of the second kind.
pub fn write_v2(bench: BenchV2, bytes: &mut [u8])
    requires { length bytes.old ≡ 521 }
    ensures { bytes.new ≡ image_v2_of bench }
{
    let sheets = bench.sheets;
    let maps = sheets.map(
        |sheet: SheetV1| -> [u8; MAP_BYTES]
            ensures { result ≡ sheet.map }
        { sheet.map },
    );
    write_maps(maps, bytes);
    imagepart::write_little(bench.n as u64, 1, bytes, SIZE_AT);
    imagepart::write_little(bench.tally, TALLY_BYTES, bytes, TALLY_AT);
}
