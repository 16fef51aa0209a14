// Reading the lines of an algebra: its size line and its operation lines.
ghost use Rattle.std.specs.Prelude.{◌≡◌, ◌+◌, ◌^◌, ◌≤◌, ◌<◌, ltb, length};
ghost use Rattle.equivalence.specs.Lists.{every};
ghost use Rattle.equivalence.specs.Refusal.{lowest};
ghost use Rattle.reader.specs.Lines.{spaced_number, size_line, arity, operation_tests};
ghost use Rattle.numberreader.specs.InnerPromises.{NumberRead};
ghost use Rattle.tablereader.specs.InnerPromises.{RoomFor};
ghost use Rattle.reader.specs.InnerPromises.{RoomForCells, CloseRead, TableIn, OperationIn};

use algebra::{MAX_ARITY, MAX_CELLS, MAX_OPERATIONS, largest, power};
use equivalence::Refusal;
use numberreader::{Number, begins_with, gap_end, read_number};
use tablereader::{Spot, read_table};

// An operation line that was read: its arity, the place after it, and how many cells there are with its own.
#[derive(Clone, Copy, Debug, PartialEq, Eq)]
pub struct OperationLine {
    pub arity: u8,
    pub next: usize,
    pub cells: usize,
}

// The place behind the end of a line, if a line ends here.
pub fn read_close(text: &[u8], at: usize) -> Option<usize>
    requires { at ≤ length text.now }
    ensures { CloseRead text.now at result }
{
    if !begins_with(text, at, b"]\n") {
        return None;
    }
    Some(at + 2)
}

// A number after a gap.
pub fn read_spaced_number(text: &[u8], at: usize) -> Option<Number>
    requires { at ≤ length text.now }
    ensures { NumberRead text.now at (spaced_number text.now at) result }
{
    let after = gap_end(text, at)?;
    read_number(text, after)
}

// The size line: `[size 4]`.
pub fn read_size(text: &[u8], at: usize) -> Option<Number>
    requires { at ≤ length text.now }
    ensures { NumberRead text.now at (size_line text.now at) result }
{
    if !begins_with(text, at, b"[size") {
        return None;
    }
    let n = read_spaced_number(text, at + 5)?;
    let next = read_close(text, n.next)?;
    Some(Number {
        value: n.value,
        next,
    })
}

// The arity of an operation line and the gap after it.
fn read_arity(text: &[u8], at: usize) -> Option<Number>
    requires { at ≤ length text.now }
    ensures { NumberRead text.now at (arity text.now at) result }
{
    let s = read_spaced_number(text, at)?;
    let next = gap_end(text, s.next)?;
    Some(Number {
        value: s.value,
        next,
    })
}

// Reasons 2, 3 and 4 for an operation of arity s behind so many operations with so many cells.
fn check_operation(n: u8, operations: usize, cells: usize, s: u8) -> Result<(), Refusal>
    requires { (n ≤ 64) × ((operations ≤ 16) × (cells < 2 ^ 63)) }
    ensures { result ≡ lowest (operation_tests n operations cells s) }
{
    if MAX_OPERATIONS < operations + 1 {
        return Err(Refusal::Operations);
    }
    if MAX_ARITY < s {
        return Err(Refusal::Arity);
    }
    if MAX_CELLS < cells + power(n as usize, s as usize) {
        return Err(Refusal::Cells);
    }
    Ok(())
}

// Whether every byte is below n: the largest is, which is found many bytes at a time.
fn are_below(n: u8, bytes: &[u8]) -> bool
    requires { 0 < n }
    ensures { result ≡ every (λ c. ltb c n) bytes.now }
{
    largest(bytes) < n
}

// The table of an operation line, to the line's end: 14, then 6.
fn read_last_table(
    n: u8,
    s: u8,
    text: &[u8],
    from: Spot,
    cells: &mut [u8],
) -> Result<OperationLine, Refusal>
    requires room_for { RoomFor (n ^ s) text.now from.at cells.old from.put }
    requires n_nonzero { 0 < n }
    ensures { TableIn text.now from.at s n cells.old from.put cells.new result }
{
    let Some(table) = read_table(n, s, text, from, cells) else {
        return Err(Refusal::Text);
    };
    let Some(next) = read_close(text, table.at) else {
        return Err(Refusal::Text);
    };
    let end = table.put;
    if !are_below(n, &cells[from.put..end]) {
        return Err(Refusal::Cell);
    }
    Ok(OperationLine {
        arity: s,
        next,
        cells: end,
    })
}

// The rest of an operation line behind `[op`: 14 in its arity, then 2, 3 or 4, then 14 and 6 in its table.
pub fn read_operation(
    n: u8,
    operations: usize,
    text: &[u8],
    from: Spot,
    cells: &mut [u8],
) -> Result<OperationLine, Refusal>
    requires room_for_cells { RoomForCells text.now from.at cells.old from.put }
    requires n_nonzero { (0 < n) × ((n ≤ 64) × (operations ≤ 16)) }
    ensures { OperationIn text.now from.at n operations cells.old from.put cells.new result }
{
    let Some(s) = read_arity(text, from.at) else {
        return Err(Refusal::Text);
    };
    check_operation(n, operations, from.put, s.value)?;
    read_last_table(n, s.value, text, Spot { at: s.next, ..from }, cells)
}
