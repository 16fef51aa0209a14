// The race of the bench: over 64 elements and with eight points on each of its eight sheets, it is given to the calls of a workload again and again.
// Standard input has the letter of the workload, and the number of turns in three bytes, the lowest first; a byte that is not there is 0. The line that is
// printed has the turns that were done, the earlier total, the tallies of the sheets, and two sums over all that is on the sheets.
// `benches/classwork_race.c` does the same with a bench in C, and `benches/classwork` times the two.
#![tactic(auto)]

use bench::{Bench, Benched, SHEETS};
use sheet::{NAME_BYTES, PLACES, Point, Sheet};

// How many elements the group has.
const SIZE: usize = 64;

const CELLS: usize = 4096;

// The elements are lists of six bits, which are added without a carry.
fn sum_of(x: usize, y: usize) -> u8 {
    ((x ^ y) % SIZE) as u8
}

fn group_cells() -> [u8; CELLS] {
    let mut cells = [0u8; CELLS];
    for (i, cell) in cells.iter_mut().enumerate() {
        *cell = sum_of(i / SIZE, i % SIZE);
    }
    cells
}

// Names of points differ in their last byte.
fn name_of(place: usize) -> [u8; NAME_BYTES] {
    let last = (place % PLACES) as u8;
    [b'p', b'o', b'i', b'n', b't', b' ', b' ', last]
}

// One of six elements that generate the group.
fn generator(number: usize) -> usize {
    let generators: [usize; 6] = [1, 2, 4, 8, 16, 32];
    let place = number % 6;
    generators[place]
}

// Joins a generator with 0.
fn add(bench: Bench, cells: &[u8], sheet: usize, number: usize) -> Benched<Bench> {
    bench::add(bench, SIZE, b"\x02", cells, sheet, 0, generator(number))
}

// The bench whose points before this place are set: every fourth point has the identity.
fn cleared(bench: Bench, sheet: usize, place: usize) -> Bench {
    if place % 4 == 0 {
        let made = bench::clear(bench, sheet);
        return made.bench;
    }
    bench
}

// One point more, and then an Add, so that the next point has half of the blocks. The four points behind each other have 64, 32, 16 and 8.
fn with_point(bench: Bench, cells: &[u8], number: usize) -> Bench {
    let sheet = number / PLACES % SHEETS;
    let place = number % PLACES;
    let ready = cleared(bench, sheet, place);
    let set = bench::set_point(ready, sheet, name_of(place));
    let held = set.bench;
    let made = add(held, cells, sheet, sheet + place);
    made.bench
}

// The bench at the start: 64 points are held, and each sheet has four blocks.
fn with_points(cells: &[u8]) -> Bench {
    let made = bench::start(SIZE);
    let mut bench = made.bench;
    for i in 0..SHEETS * PLACES {
        bench = with_point(bench, cells, i);
    }
    bench
}

// Return to a point, and an Add that leaves half of its blocks.
fn return_and_add(bench: Bench, cells: &[u8], sheet: usize, place: usize) -> Benched<Bench> {
    let returned = bench::return_to(bench, sheet, name_of(place));
    if returned.answer.is_err() {
        return returned;
    }
    let next = returned.bench;
    add(next, cells, sheet, sheet % SHEETS + place % PLACES)
}

// Forget a point, and Set it anew.
fn forget_and_set(bench: Bench, sheet: usize, place: usize) -> Benched<Bench> {
    let forgotten = bench::forget(bench, sheet, name_of(place));
    if forgotten.answer.is_err() {
        return forgotten;
    }
    let next = forgotten.bench;
    bench::set_point(next, sheet, name_of(place))
}

// The calls of a turn. The sheets take turns, and then the points of a sheet.
fn turn(workload: u8, bench: Bench, cells: &[u8], number: usize) -> Benched<Bench> {
    let sheet = number % SHEETS;
    let place = number / SHEETS % PLACES;
    match workload {
        // A pair that the sheet has held from the start.
        b'h' => add(bench, cells, sheet, sheet + 4),
        b'a' => return_and_add(bench, cells, sheet, place),
        b'c' => bench::clear(bench, sheet),
        b's' => bench::set_point(bench, sheet, name_of(place)),
        b'r' => bench::return_to(bench, sheet, name_of(place)),
        b'f' => forget_and_set(bench, sheet, place),
        _ => Benched {
            answer: Ok(()),
            bench,
        },
    }
}

// The bench after the turns, and how many were done: a refusal ends them.
#[derive(Clone, Copy)]
struct Played {
    bench: Bench,
    turns: usize,
}

fn ended(made: Benched<Bench>, turns: usize) -> Played {
    let bench = made.bench;
    Played { bench, turns }
}

// What a call gave is kept as it is until the next: each copy of a bench would be timed.
fn play(workload: u8, begun: Bench, cells: &[u8], turns: usize) -> Played {
    let mut made = Benched {
        answer: Ok(()),
        bench: begun,
    };
    for number in 0..turns {
        let bench = made.bench;
        made = turn(workload, bench, cells, number);
        if made.answer.is_err() {
            return ended(made, number);
        }
    }
    ended(made, turns)
}

// The sum of the numbers so far, and the sum of all these sums.
#[derive(Clone, Copy)]
struct Sums {
    low: u64,
    high: u64,
}

fn with_number(sums: Sums, number: u64) -> Sums {
    let low = std::num::wrapping_add_u64(sums.low, number);
    let high = std::num::wrapping_add_u64(sums.high, low);
    Sums { low, high }
}

fn with_bytes(sums: Sums, bytes: &[u8]) -> Sums {
    bytes
        .iter()
        .fold(sums, |next, &byte| with_number(next, u64::from(byte)))
}

// A place's name and map.
fn with_place(sums: Sums, point: Point) -> Sums {
    let name = point.name;
    let map = point.map;
    let named = with_bytes(sums, &name);
    with_bytes(named, &map)
}

// All eight places, whatever they hold.
fn with_places(sums: Sums, points: [Point; PLACES]) -> Sums {
    points.into_iter().fold(sums, with_place)
}

fn with_sheet(sums: Sums, sheet: Sheet) -> Sums {
    let map = sheet.map;
    let points = sheet.points;
    let mapped = with_bytes(sums, &map);
    let tallied = with_number(mapped, sheet.tally);
    let counted = with_number(tallied, sheet.count as u64);
    with_places(counted, points)
}

fn sums_of(sheets: [Sheet; SHEETS]) -> Sums {
    sheets
        .into_iter()
        .fold(Sums { low: 0, high: 0 }, with_sheet)
}

fn print_number(words: &[u8], number: u64) {
    io::write_all(1, words);
    io::print_decimal(1, number);
}

fn print_tallies(sheets: [Sheet; SHEETS]) {
    io::write_all(1, b", tallies");
    for sheet in &sheets {
        print_number(b" ", sheet.tally);
    }
}

fn print_played(played: Played) {
    let bench = played.bench;
    let sheets = bench.sheets;
    let sums = sums_of(sheets);
    print_number(b"turns ", played.turns as u64);
    print_number(b", earlier ", bench.earlier);
    print_tallies(sheets);
    print_number(b", sums ", sums.low);
    print_number(b" ", sums.high);
    io::write_all(1, b"\n");
}

fn main() {
    let mut input = [0u8; 4];
    io::read_full(0, &mut input);
    let turns = u32::from_le_bytes([input[1], input[2], input[3], 0]) as usize;
    let cells = group_cells();
    let bench = with_points(&cells);
    let played = play(input[0], bench, &cells, turns);
    print_played(played);
}
