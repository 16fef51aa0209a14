// Reading a row: n numbers, parted by gaps. They are read many or two at a time as far as can be, and the last ones one by one, which alone tells what is faulty.
ghost use Rattle.std.specs.Prelude.{true, ◌≡◌, ◌+◌, ◌*◌, ◌≤◌, ◌<◌, length};
ghost use Rattle.tablereader.specs.Tables.{cell, parted};
ghost use Rattle.tablereader.specs.InnerPromises.{RoomFor, StoredBy};
ghost use Rattle.tablereader.specs.InnerRows.{RowWithin, RowBegunBy, Digit, LongRead, PairRead, PairBy, choose, ItemLength, value_of, Fits};

use crate::short_rows::read_short;
use crate::{Spot, read_cell};
use numberreader::{gap_end, is_digit};

// How far a row is read: how many numbers are left, and where the next one is and goes.
#[derive(Clone, Copy, Debug, PartialEq, Eq)]
pub struct RowSoFar {
    pub more: u8,
    pub here: Spot,
}

// Two numbers, each with a gap behind it, and the place after them.
#[derive(Clone, Copy, Debug, PartialEq, Eq)]
pub struct Pair {
    pub first: u8,
    pub second: u8,
    pub next: usize,
}

// One of two bytes. Which one cannot be foreseen, so both are read before and one is chosen without a branch.
fn chosen(wide: bool, x: u8, y: u8) -> u8
    ensures { result ≡ choose wide x y }
{
    if wide { x } else { y }
}

// The bytes of a number of one digit or two and of the gap behind it.
fn item_length(wide: bool) -> usize
    ensures { ItemLength wide result }
{
    if wide { 3 } else { 2 }
}

// The number of the digits a and b, or of a alone.
fn value(wide: bool, a: u8, b: u8) -> u8
    requires digit { Digit a }
    requires digit_2 { wide ≡ true → Digit b }
    ensures { result ≡ value_of wide a b }
{
    if wide {
        10 * (a - b'0') + (b - b'0')
    } else {
        a - b'0'
    }
}

// Whether a byte is the first digit of a number of one digit or two, with a gap behind that.
fn fits(wide: bool, a: u8, behind: u8) -> bool
    ensures { result ≡ true → Fits wide a behind }
{
    if behind != b' ' {
        return false;
    }
    if !is_digit(a) {
        return false;
    }
    if !wide {
        return true;
    }
    a != b'0'
}

// A number of two digits with a gap behind it, if such bytes stand here.
fn long_number(a: u8, b: u8, behind: u8) -> Option<u8>
    ensures { LongRead a b behind result }
{
    if !is_digit(b) {
        return None;
    }
    if !fits(true, a, behind) {
        return None;
    }
    Some(10 * (a - b'0') + (b - b'0'))
}

// Two numbers of two digits, if they stand here, each with a gap behind it.
fn long_pair(text: &[u8], at: usize) -> Option<Pair>
    requires { at + 6 ≤ length text.now }
    ensures { PairBy true text.now at result }
{
    let first = long_number(text[at], text[at + 1], text[at + 2])?;
    let second = long_number(text[at + 3], text[at + 4], text[at + 5])?;
    Some(Pair {
        first,
        second,
        next: at + 6,
    })
}

// Two numbers below 100, if they stand here, each with a gap behind it. How many digits each has cannot be foreseen, so nothing branches on it.
fn mixed_pair(text: &[u8], at: usize) -> Option<Pair>
    requires { at ≤ length text.now }
    ensures { PairRead text.now at result }
{
    if text.len() - at < 7 {
        return None;
    }
    let a = text[at];
    let b = text[at + 1];
    let wide = is_digit(b);
    let c = chosen(wide, text[at + 3], text[at + 2]);
    let d = chosen(wide, text[at + 4], text[at + 3]);
    let wide_too = is_digit(d);
    let mid = at + item_length(wide);
    let next = mid + item_length(wide_too);
    if !fits(wide, a, text[mid - 1]) {
        return None;
    }
    if !fits(wide_too, c, text[next - 1]) {
        return None;
    }
    Some(Pair {
        first: value(wide, a, b),
        second: value(wide_too, c, d),
        next,
    })
}

// Two numbers of two digits, or of one or two, if they stand here, each with a gap behind it.
fn next_pair(long: bool, text: &[u8], at: usize) -> Option<Pair>
    requires { RowWithin long 2 text.now at }
    ensures { PairBy long text.now at result }
{
    if long {
        long_pair(text, at)
    } else {
        mixed_pair(text, at)
    }
}

// The numbers two by two, as long as they have two digits, or one or two, and more than two are left. The compiler makes two loops of this one.
fn read_pairs(long: bool, n: u8, text: &[u8], from: Spot, cells: &mut [u8]) -> RowSoFar
    requires room_for { RoomFor n text.now from.at cells.old from.put }
    requires n_nonzero { 0 < n }
    requires row_within { RowWithin long n text.now from.at }
    ensures { RowBegunBy n text.entry from cells.entry cells.exit result }
{
    let mut more = n;
    let mut here = from;
    // A `while`: it takes two at a time, and ends where they are no pair.
    while 2 < more {
        let Some(pair) = next_pair(long, text, here.at) else {
            return RowSoFar { more, here };
        };
        cells[here.put] = pair.first;
        cells[here.put + 1] = pair.second;
        more -= 2;
        here = Spot {
            at: pair.next,
            put: here.put + 2,
        };
    }
    RowSoFar { more, here }
}

// Whether a bracket is the last of so many bytes.
fn is_closed(count: usize, text: &[u8], at: usize) -> bool
    requires { (0 < count) × (at ≤ length text.now) }
    ensures { result ≡ true → at + count ≤ length text.now }
{
    if text.len() - at < count {
        return false;
    }
    text[at + count - 1] == b']'
}

// Most numbers of a row. Where it ends shows whether each has one digit, or each two: only then their lengths can be foreseen.
fn read_most(n: u8, text: &[u8], from: Spot, cells: &mut [u8]) -> RowSoFar
    requires room_for { RoomFor n text.now from.at cells.old from.put }
    requires n_nonzero { 0 < n }
    ensures { RowBegunBy n text.entry from cells.entry cells.exit result }
{
    if is_closed(2 * (n as usize), text, from.at) {
        return read_short(n, text, from, cells);
    }
    let long = is_closed(3 * (n as usize), text, from.at);
    read_pairs(long, n, text, from, cells)
}

// n numbers one by one.
fn read_one_by_one(n: u8, text: &[u8], from: Spot, cells: &mut [u8]) -> Option<Spot>
    requires room_for { RoomFor n text.now from.at cells.old from.put }
    requires n_nonzero { 0 < n }
    ensures { StoredBy (parted cell n) text.entry from cells.entry cells.exit result }
{
    let mut here = from;
    for _i in 1..n {
        let item = read_cell(text, here, cells)?;
        let next = gap_end(text, item.at)?;
        here = Spot { at: next, ..item };
    }
    read_cell(text, here, cells)
}

// n numbers, parted by gaps: `read_rows` over tables of arity 0, without a call for each.
pub fn read_row(n: u8, text: &[u8], from: Spot, cells: &mut [u8]) -> Option<Spot>
    requires room_for { RoomFor n text.now from.at cells.old from.put }
    requires n_nonzero { 0 < n }
    ensures { StoredBy (parted cell n) text.entry from cells.entry cells.exit result }
{
    let most = read_most(n, text, from, cells);
    read_one_by_one(most.more, text, most.here, cells)
}
