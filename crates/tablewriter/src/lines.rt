// Writing the lines of an algebra: `reader::taking` takes them back.
ghost use Rattle.std.specs.Prelude.{◌+◌, ◌≤◌, length};
ghost use Rattle.algebra.specs.Algebra.{algebra_in};
ghost use Rattle.tablereader.specs.Laying.{Laid};
ghost use Rattle.tablewriter.specs.Texts.{size_text, operation_text, algebra_text};
ghost use Rattle.tablewriter.specs.InnerFits.{operation_of, arity_text, operations_text, OperationFits, OperationsFit, LinesFit};

use crate::tables::write_table;
use algebra::power;
use writer::{write_close, write_gap, write_spaced_number, write_word};

// `[size 4]`
fn write_size(n: u8, out: &mut [u8]) -> usize
    requires { length (size_text n) ≤ length out.old }
    ensures { Laid out.old 0 (size_text n) out.new result }
{
    let word = write_word(b"[size", out, 0);
    let end = write_spaced_number(n, out, word);
    write_close(out, end)
}

// `[op 1 `
fn write_arity(arity: u8, out: &mut [u8], put: usize) -> usize
    requires put_in_bounds { put + 7 ≤ length out.old }
    requires arity_bound { arity ≤ 3 }
    ensures { Laid out.old put (arity_text arity) out.new result }
{
    let word = write_word(b"[op", out, put);
    let number = write_spaced_number(arity, out, word);
    write_gap(out, number)
}

// `[op 1 [1 0 3 2]]`
fn write_operation(n: usize, arity: u8, cells: &[u8], out: &mut [u8], put: usize) -> usize
    requires { OperationFits n arity cells.now put out.old }
    ensures { Laid out.old put (operation_text n (operation_of arity cells.now)) out.new result }
{
    let table = write_arity(arity, out, put);
    let end = write_table(n, arity, cells, out, table);
    write_close(out, end)
}

// The operation lines.
fn write_operations(n: usize, arities: &[u8], cells: &[u8], out: &mut [u8], put: usize) -> usize
    requires { OperationsFit n arities.now cells.now put out.old }
    ensures { Laid out.old put (operations_text (algebra_in n arities.entry cells.entry)) out.new result }
{
    let mut at = put;
    let mut from = 0;
    for arity in arities {
        let to = from + power(n, *arity as usize);
        at = write_operation(n, *arity, &cells[from..to], out, at);
        from = to;
    }
    at
}

// The size line and the operation lines.
pub fn write_lines(n: usize, arities: &[u8], cells: &[u8], out: &mut [u8]) -> usize
    requires { LinesFit n arities.now cells.now out.old }
    ensures { Laid out.old 0 (algebra_text (algebra_in n arities.entry cells.entry)) out.new result }
{
    let end = write_size(n as u8, out);
    write_operations(n, arities, cells, out, end)
}
