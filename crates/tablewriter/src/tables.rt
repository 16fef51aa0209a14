// Writing tables: `tablereader` reads them back.
ghost use Rattle.std.specs.Prelude.{◌^◌};
ghost use Rattle.tablereader.specs.Laying.{Laid};
ghost use Rattle.tablewriter.specs.Texts.{parted_texts, table_text};
ghost use Rattle.tablewriter.specs.InnerFits.{RowsFit, TableFits};

use algebra::{largest, power};
use writer::{write_bracketed, write_byte, write_gap, write_number, write_row};

// So many rows of n numbers, parted by gaps: `write_rows` over tables of arity 1, without a call for each. Which number is the largest is asked once for all.
fn write_number_rows(n: usize, left: usize, cells: &[u8], out: &mut [u8], put: usize) -> usize
    requires { RowsFit n 1 left cells.now put out.old }
    ensures { Laid out.old put (parted_texts (table_text n 1) (n ^ 1) left cells.now) out.new result }
{
    let all = left * n;
    let top = largest(&cells[0..all]);
    let mut at = put;
    let mut from = 0;
    for _i in 1..left {
        let to = from + n;
        let end = write_row(top, &cells[from..to], out, at);
        at = write_gap(out, end);
        from = to;
    }
    let to = from + n;
    write_row(top, &cells[from..to], out, at)
}

// The table of an arity that the cells begin with: a number, a bracket of numbers, or a bracket of n tables of the arity below.
#[cycle(write_rows_write_table)]
pub fn write_table(n: usize, arity: u8, cells: &[u8], out: &mut [u8], put: usize) -> usize
    requires { TableFits n arity cells.now put out.old }
    ensures { Laid out.old put (table_text n arity cells.now) out.new result }
{
    if arity == 0 {
        return write_number(cells[0], out, put);
    }
    if arity == 1 {
        return write_bracketed(&cells[0..n], out, put);
    }
    let first = write_byte(b'[', out, put);
    let end = write_rows(n, arity - 1, n, cells, out, first);
    write_byte(b']', out, end)
}

// So many tables of an arity, parted by gaps.
#[cycle(write_rows_write_table)]
fn write_rows(n: usize, arity: u8, left: usize, cells: &[u8], out: &mut [u8], put: usize) -> usize
    requires { RowsFit n arity left cells.now put out.old }
    ensures { Laid out.old put (parted_texts (table_text n arity) (n ^ arity) left cells.now) out.new result }
{
    if arity == 1 {
        return write_number_rows(n, left, cells, out, put);
    }
    let end = write_table(n, arity, cells, out, put);
    if left == 1 {
        return end;
    }
    let width = power(n, arity as usize);
    let next = write_gap(out, end);
    write_rows(n, arity, left - 1, &cells[width..], out, next)
}
