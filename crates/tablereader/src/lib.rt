// Reading tables of bracket text into lent storage: cells, rows, tables and lists of tables.
#![tactic(auto)]

ghost use Rattle.std.specs.Prelude.{◌-◌, ◌*◌, ◌^◌, ◌<◌};
ghost use Rattle.tablereader.specs.Tables.{cell, table, parted, items};
ghost use Rattle.tablereader.specs.InnerPromises.{RoomFor, RoomForText, StoredBy};

use crate::rows::read_row;
use numberreader::{byte_at, gap_end, read_number};

mod rows;
mod short_rows;

// Where a reader that stores what it reads stands: the next place in the text, and the next in the storage.
#[derive(Clone, Copy, Debug, PartialEq, Eq)]
pub struct Spot {
    pub at: usize,
    pub put: usize,
}

// A number, stored as one byte.
pub fn read_cell(text: &[u8], from: Spot, cells: &mut [u8]) -> Option<Spot>
    requires { RoomFor 1 text.now from.at cells.old from.put }
    ensures { StoredBy cell text.entry from cells.entry cells.exit result }
{
    let v = read_number(text, from.at)?;
    cells[from.put] = v.value;
    Some(Spot {
        at: v.next,
        put: from.put + 1,
    })
}

// A table of an arity: a number, or a bracket of n tables of the arity below.
#[cycle(read_rows_read_table)]
pub fn read_table(n: u8, arity: u8, text: &[u8], from: Spot, cells: &mut [u8]) -> Option<Spot>
    requires room_for { RoomFor (n ^ arity) text.now from.at cells.old from.put }
    requires n_nonzero { 0 < n }
    ensures { StoredBy (table n arity) text.entry from cells.entry cells.exit result }
{
    if arity == 0 {
        return read_cell(text, from, cells);
    }
    if byte_at(text, from.at) != b'[' {
        return None;
    }
    let inside = Spot {
        at: from.at + 1,
        ..from
    };
    let rows = read_rows(n, arity, text, inside, cells)?;
    if byte_at(text, rows.at) != b']' {
        return None;
    }
    Some(Spot {
        at: rows.at + 1,
        ..rows
    })
}

// n tables of the arity below, parted by gaps.
#[cycle(read_rows_read_table)]
fn read_rows(n: u8, arity: u8, text: &[u8], from: Spot, cells: &mut [u8]) -> Option<Spot>
    requires room_for { RoomFor (n * n ^ (arity - 1)) text.now from.at cells.old from.put }
    requires n_nonzero { (0 < n) × (0 < arity) }
    ensures { StoredBy (parted (table n (arity - 1)) n) text.entry from cells.entry cells.exit result }
{
    if arity == 1 {
        return read_row(n, text, from, cells);
    }
    let mut here = from;
    for _i in 1..n {
        let item = read_table(n, arity - 1, text, here, cells)?;
        let next = gap_end(text, item.at)?;
        here = Spot { at: next, ..item };
    }
    read_table(n, arity - 1, text, here, cells)
}

// Any count of tables of an arity, each after a gap.
pub fn read_items(n: u8, arity: u8, text: &[u8], from: Spot, cells: &mut [u8]) -> Option<Spot>
    requires room_for_text { RoomForText text.now from.at cells.old from.put }
    requires n_nonzero { 0 < n }
    ensures { StoredBy (items (table n arity)) text.entry from cells.entry cells.exit result }
{
    let mut here = from;
    // No count: it ends where no gap stands.
    while let Some(after) = gap_end(text, here.at) {
        here = read_table(n, arity, text, Spot { at: after, ..here }, cells)?;
    }
    Some(here)
}
