// Benches of older kinds, and their conversions. Each line is a conversion, its answer, of sheet 5 the first four bytes, and the tally; where it makes a
// bench of today's kind, the eight tallies, the earlier total, and the names of the points on sheet 5.
use super::lines::{
    add, clear, print_answer, print_map, print_new, print_tally, return_to, say, set, show, start,
};
use super::samples::{bytes, plain, pointed};
use bench::Bench;
use equivalence::Refusal;
use oldbenches::{BenchV1, BenchV2, BenchV3, SheetV1, SheetV3};
use sheet::Sheet;

// Eight sheets of an old bench over four elements, with identities but on sheet 5.
fn old_sheets(map: [u8; 64]) -> [SheetV1; 8] {
    let mut sheets = [SheetV1 { map: bytes(1) }; 8];
    sheets[5] = SheetV1 { map };
    sheets
}

// A bench of the first kind, whose tally is at the top of 32 bits.
fn first_kind(n: usize, map: [u8; 64]) -> BenchV1 {
    BenchV1 {
        n,
        tally: 4294967295,
        sheets: old_sheets(map),
    }
}

// A bench of the second kind, whose tally is one higher.
fn second_kind(n: usize, map: [u8; 64]) -> BenchV2 {
    BenchV2 {
        n,
        tally: 4294967296,
        sheets: old_sheets(map),
    }
}

// A bench of the third kind with identities but on sheet 5, whose one tally is at the top of 64 bits.
fn third_kind(n: usize, sheet: Sheet) -> BenchV3 {
    let identity = SheetV3::from(plain(bytes(1)));
    let mut sheets = [identity; 8];
    sheets[5] = SheetV3::from(sheet);
    BenchV3 {
        n,
        tally: 18446744073709551615,
        sheets,
    }
}

// A conversion, as it is said.
fn ask_of(kind: &[u8], n: usize) {
    io::write_all(1, b"convert the ");
    io::write_all(1, kind);
    io::write_all(1, b" kind over ");
    io::print_decimal(1, n as u64);
    io::write_all(1, b" ->");
}

// What a conversion into an older kind gives: its answer, the map of sheet 5, and the one tally.
fn print_old(answer: Result<(), Refusal>, map: [u8; 64], tally: u64) {
    print_answer(answer);
    print_map(map);
    print_tally(tally);
    io::write_all(1, b"\n");
}

fn convert_first(old: BenchV1) -> BenchV2 {
    ask_of(b"first", old.n);
    let made = oldbenches::convert_v1(old);
    let next = made.bench;
    let map = next.sheets[5].map;
    print_old(made.answer, map, next.tally);
    next
}

fn convert_second(old: BenchV2) -> BenchV3 {
    ask_of(b"second", old.n);
    let made = oldbenches::convert_v2(old);
    let next = made.bench;
    let map = next.sheets[5].map;
    print_old(made.answer, map, next.tally);
    next
}

fn convert_third(old: BenchV3) -> Bench {
    ask_of(b"third", old.n);
    let made = conversion::convert_v3(old);
    let next = made.bench;
    let shown = next.sheets[5];
    print_new(made, shown);
    next
}

// What a bench of the third kind becomes: the old tally stands by itself, the sheets begin at 0, and the points are held.
pub fn converted() {
    say(b"an old bench, its one tally at the top of 64 bits; sheet 5 holds a point, 0 0 2 3:");
    let bench = convert_third(third_kind(4, pointed(1, bytes(0))));
    let back = return_to(bench, 5, *b"samename");
    say(b"the old total refuses nothing:");
    let joined = add(back, 5, 1, 2);
    let beside = add(joined, 0, 2, 3);
    show(beside);
    say(b"a new start:");
    let fresh = start(4);
}

// Benches of older kinds go through the conversions in turn.
pub fn chains() {
    say(b"an older one, its tally at the top of 32 bits; sheet 5 is 0 0 2 3:");
    let second = convert_first(first_kind(4, bytes(0)));
    let third = convert_second(second);
    let bench = convert_third(third);
    let more = add(bench, 5, 2, 3);
    let stored = set(more, 5, *b"zero=one");
    show(stored);
    say(b"one of the second kind, its tally one higher:");
    let pointless = convert_second(second_kind(4, bytes(0)));
    let last = convert_third(pointless);
}

// What the conversions decline, each with a bench of zeros.
pub fn unconverted() {
    say(b"declined, old benches over 0 and 65 elements:");
    let none = convert_first(first_kind(0, bytes(0)));
    let many = convert_second(second_kind(65, bytes(0)));
    let third = convert_third(third_kind(65, plain(bytes(0))));
    say(b"with 0 2 2 3 on sheet 5; the zeros that come instead are declined in turn:");
    let odd = convert_first(first_kind(4, bytes(2)));
    let zeros = convert_second(odd);
    let second = convert_second(second_kind(4, bytes(2)));
    let faulty = convert_third(third_kind(4, plain(bytes(2))));
    let again = clear(faulty, 5);
    say(b"with two points of one name there; one that is 0 2 2 3; nine:");
    let twins = convert_third(third_kind(4, pointed(2, bytes(0))));
    let no_map = convert_third(third_kind(4, pointed(1, bytes(2))));
    let nine = convert_third(third_kind(4, pointed(9, bytes(0))));
}
