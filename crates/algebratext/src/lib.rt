// Algebras as texts: the writer and the reader of whole algebras.
#![tactic(auto)]

ghost use Rattle.std.specs.Prelude.{◌≡◌, IfOk};
ghost use Rattle.equivalence.specs.Refusal.{lowest};
ghost use Rattle.algebra.specs.Algebra.{algebra_in};
ghost use Rattle.algebratext.specs.Calls.{write_tests, write_call, read_call};
ghost use Rattle.algebratext.specs.Bounds.{TextBounded, ReadBounded};

use algebra::{MAX_CELLS, MAX_OPERATIONS};
use equivalence::Refusal;
use tablewriter::lengths::text_length;
use tablewriter::lines::write_lines;

mod reading;

// What the reader answers: the size, how many operations there are, their arities with 0 behind them, and how many cells.
#[derive(Clone, Copy, Debug, PartialEq, Eq)]
pub struct AlgebraRead {
    pub size: u8,
    pub operations: usize,
    pub arities: [u8; MAX_OPERATIONS],
    pub cells: usize,
}

// 1 to 6, then 9 where fewer bytes are lent than the text has.
fn write_check(n: usize, arities: &[u8], cells: &[u8], room: usize) -> Result<(), Refusal>
    ensures { result ≡ lowest (write_tests (algebra_in n arities.entry cells.entry) room) }
{
    algebra::check(n, arities, cells)?;
    if room < text_length(n, arities, cells) {
        return Err(Refusal::Space);
    }
    Ok(())
}

// The text of an algebra, a size line and an operation line for each table, goes to the start of out; the answer is how long it is.
// Bytes behind it keep their value. Reasons to decline: 1 to 6, and 9 where fewer bytes are lent than the text has; then nothing is written.
pub fn write_algebra(
    n: usize,
    arities: &[u8],
    cells: &[u8],
    out: &mut [u8],
) -> Result<usize, Refusal>
    ensures out_after { (result, out.new) ≡ write_call (algebra_in n arities.entry cells.entry) out.old }
    ensures bounded { TextBounded result }
{
    write_check(n, arities, cells, out.len())?;
    Ok(write_lines(n, arities, cells, out))
}

// The algebra that a text says, a size line and operation lines to its end; its cells go to the start of `cells`, and bytes behind them keep their value. Fewer
// than 32,768 lent bytes are 9, whatever the text is. Else the first line that is refused decides: 14, 1, 2, 3, 4 and 6 by document 01's rules for lines, 14 for
// any other line and for an empty text. A text may be of any length. A refusal writes nothing.
pub fn read_algebra(text: &[u8], cells: &mut [u8]) -> Result<AlgebraRead, Refusal>
    ensures cells_after { (result, cells.new) ≡ read_call text.now cells.old }
    ensures bounded { IfOk result ReadBounded }
{
    if cells.len() < MAX_CELLS {
        return Err(Refusal::Space);
    }
    let mut room = [0u8; MAX_CELLS];
    reading::read_whole(text, &mut room, cells)
}
