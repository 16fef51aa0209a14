// Takes the lines of an algebra one by one: its size line, at any place of a text, and its operation lines. An algebra is read by a loop over these.
ghost use Rattle.std.specs.Prelude.{◌+◌, ◌≤◌, length};
ghost use Rattle.reader.specs.InnerPromises.{RoomForCells};
ghost use Rattle.reader.specs.InnerTaking.{Readable, SizeIn, OperationLineIn};

use crate::lines::{read_operation, read_size};
use equivalence::Refusal;
use equivalence::checks::is_size;
use tablereader::Spot;

// An algebra as far as its lines are read: where the next line begins, its size, and how many operations and cells it has. The arities of its operations, and
// the cells of their tables, stand first in two slices that the caller lends to every line.
#[derive(Clone, Copy, Debug, PartialEq, Eq)]
pub struct AlgebraSoFar {
    pub at: usize,
    pub size: u8,
    pub operations: usize,
    pub cells: usize,
}

// The size line at a place: 14, then 1.
pub fn take_size_line(text: &[u8], at: usize) -> Result<AlgebraSoFar, Refusal>
    requires { at ≤ length text.now }
    ensures { SizeIn text.now at result }
{
    let Some(size) = read_size(text, at) else {
        return Err(Refusal::Text);
    };
    let n = size.value;
    if !is_size(n as usize) {
        return Err(Refusal::Size);
    }
    Ok(AlgebraSoFar {
        at: size.next,
        size: n,
        operations: 0,
        cells: 0,
    })
}

// The operation line that comes next, which begins with `[op`: 14 in its arity, then 2, 3 or 4, then 14 and 6 in its table. `arities` wants 16 bytes. `cells` wants
// 32,768, or as many as the text, and behind those that are in use they are left open.
pub fn take_operation_line(
    text: &[u8],
    algebra: AlgebraSoFar,
    arities: &mut [u8],
    cells: &mut [u8],
) -> Result<AlgebraSoFar, Refusal>
    requires readable { Readable text.now algebra }
    requires in_bounds { 16 ≤ length arities.old }
    requires room_for_cells { RoomForCells text.now (algebra.at + 3) cells.old algebra.cells }
    ensures { OperationLineIn text.now algebra arities.old cells.old arities.new cells.new result }
{
    let operations = algebra.operations;
    let from = Spot {
        at: algebra.at + 3,
        put: algebra.cells,
    };
    let line = read_operation(algebra.size, operations, text, from, cells)?;
    arities[operations] = line.arity;
    Ok(AlgebraSoFar {
        at: line.next,
        size: algebra.size,
        operations: operations + 1,
        cells: line.cells,
    })
}
