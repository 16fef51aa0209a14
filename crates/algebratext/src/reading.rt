// Reading a whole algebra: its lines are taken one by one into storage of the reader's own, and the cells copied once all are accepted.
ghost use Rattle.std.specs.Prelude.{◌≡◌, ◌≤◌, IfOk, length};
ghost use Rattle.algebratext.specs.Bounds.{ReadBounded};
ghost use Rattle.algebratext.specs.InnerReading.{LinesIn, whole_call};

use crate::AlgebraRead;
use algebra::MAX_OPERATIONS;
use equivalence::Refusal;
use numberreader::begins_with;
use reader::taking::{AlgebraSoFar, take_operation_line, take_size_line};
use writer::write_word;

// The lines of a whole text. `arities` wants 16 bytes, `cells` 32,768.
fn take_lines(text: &[u8], arities: &mut [u8], cells: &mut [u8]) -> Result<AlgebraSoFar, Refusal>
    requires in_bounds { 16 ≤ length arities.old }
    requires in_bounds_2 { 32768 ≤ length cells.old }
    ensures { LinesIn text.now arities.old arities.new cells.new result }
{
    let mut algebra = take_size_line(text, 0)?;
    // A `while`: the place moves to where the line that was taken ends.
    while algebra.at < text.len() {
        if !begins_with(text, algebra.at, b"[op") {
            return Err(Refusal::Text);
        }
        algebra = take_operation_line(text, algebra, arities, cells)?;
    }
    Ok(algebra)
}

// The algebra that a whole text says, read into `room` and copied to `cells` once all lines are accepted; both want 32,768 bytes.
pub fn read_whole(text: &[u8], room: &mut [u8], cells: &mut [u8]) -> Result<AlgebraRead, Refusal>
    requires in_bounds { 32768 ≤ length room.old }
    requires in_bounds_2 { 32768 ≤ length cells.old }
    ensures cells_after { (result, cells.new) ≡ whole_call text.now cells.old }
    ensures bounded { IfOk result ReadBounded }
{
    let mut arities = [0u8; MAX_OPERATIONS];
    let algebra = take_lines(text, &mut arities, room)?;
    let count = algebra.cells;
    write_word(&room[0..count], cells, 0);
    Ok(AlgebraRead {
        size: algebra.size,
        operations: algebra.operations,
        arities,
        cells: count,
    })
}
