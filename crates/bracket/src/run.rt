// A run over a text, in fills: lines are taken, and what they write is laid in a lent slice, until the run is over or the slice gets short.
ghost use Rattle.std.specs.Prelude.{true, ◌≡◌, ◌≤◌};
ghost use Rattle.bracket.specs.Standings.{Sound, FillPromiseIn, unread as unreadAs, standing_room, can_fill};
ghost use Rattle.bracket.specs.InnerSteps.{Lent, LinedIn, FillingIn, closed_at};

use crate::steps::next_step;
use algebra::{MAX_CELLS, MAX_OPERATIONS};
use equivalence::checks::MAX_SIZE;

// What a line may want of room: for each element, a map of 64 numbers in a bracket, or for each cell, three bytes and a share of the brackets around it; and for its words.
const MAP_ROOM: usize = 258;

const CELL_ROOM: usize = 4;

const WORD_ROOM: usize = 256;

// Where a run stands: whether it goes on, the start of the next line, the algebra's size, how many operations and cells it has, and whether a request has
// come. The arities of the operations, and the cells, stand first in two slices that the caller lends to every fill. A flag beside the numbers: what `fill` and
// `can_fill` promise speaks of a standing that is over, too.
#[derive(Clone, Copy, Debug, PartialEq, Eq)]
pub struct Standing {
    pub goes: bool,
    pub at: usize,
    pub size: u8,
    pub operations: usize,
    pub cells: usize,
    pub requested: bool,
}

// Where the run stands after some lines, and how many bytes they wrote.
#[derive(Clone, Copy, Debug, PartialEq, Eq)]
pub struct Stepped {
    pub standing: Standing,
    pub wrote: usize,
}

// A run of which no line is read; it goes on, or it is over.
pub fn unread(goes: bool) -> Standing
    ensures { result ≡ unreadAs goes }
{
    Standing {
        goes,
        at: 0,
        size: 1,
        operations: 0,
        cells: 0,
        requested: false,
    }
}

// A standing in a text of `end` bytes: at the end of the text the run is over.
fn closed(standing: Standing, end: usize) -> Standing
    ensures { result ≡ closed_at standing end }
{
    if standing.at < end {
        return standing;
    }
    Standing {
        goes: false,
        ..standing
    }
}

// The room that the line at a standing may want.
fn line_room(standing: Standing) -> usize
    requires { (standing.size ≤ 64) × (standing.cells ≤ 32768) }
    ensures { result ≡ standing_room standing }
{
    if standing.at == 0 {
        return MAP_ROOM + WORD_ROOM;
    }
    let maps = MAP_ROOM * (standing.size as usize);
    let tables = CELL_ROOM * standing.cells;
    if maps < tables {
        return tables + WORD_ROOM;
    }
    maps + WORD_ROOM
}

// Takes the line at which a run stands.
fn take_line(
    text: &[u8],
    standing: Standing,
    arities: &mut [u8],
    room: &mut [u8],
    out: &mut [u8],
) -> Stepped
    requires sound { Sound text.now standing }
    requires lent { Lent text.now standing arities.old room.old out.old }
    requires goes_value { standing.goes ≡ true }
    ensures { LinedIn text.entry standing arities.entry room.entry out.entry arities.exit room.exit out.exit result }
{
    let taken = next_step(text, standing, arities, room, out);
    let wrote = taken.wrote;
    Stepped {
        standing: closed(taken.standing, text.len()),
        wrote,
    }
}

// Takes lines, each behind the bytes that those before it laid.
fn take_lines(
    text: &[u8],
    start: Standing,
    arities: &mut [u8],
    room: &mut [u8],
    out: &mut [u8],
) -> Stepped
    requires sound { Sound text.now start }
    requires lent { Lent text.now start arities.old room.old out.old }
    ensures { FillingIn text.entry start arities.entry room.entry out.entry arities.exit room.exit out.exit result }
{
    let mut standing = start;
    let mut put: usize = 0;
    // A `while`: it ends where the run is over, or the room gets short.
    while standing.goes {
        if out.len() - put < line_room(standing) {
            return Stepped {
                standing,
                wrote: put,
            };
        }
        let next = take_line(text, standing, arities, room, &mut out[put..]);
        standing = next.standing;
        put += next.wrote;
    }
    Stepped {
        standing,
        wrote: put,
    }
}

// Whether a fill can be made: the run goes on, from a standing that a run can come to, and slices of these lengths are enough.
pub fn can_fill(text: usize, standing: Standing, arities: usize, room: usize, out: usize) -> bool
    ensures { result ≡ can_fill text standing arities room out }
{
    if !standing.goes {
        return false;
    }
    if text < standing.at {
        return false;
    }
    if standing.size < 1 {
        return false;
    }
    if MAX_SIZE < standing.size as usize {
        return false;
    }
    if MAX_OPERATIONS < standing.operations {
        return false;
    }
    if standing.at < standing.operations {
        return false;
    }
    if MAX_CELLS < standing.cells {
        return false;
    }
    if standing.at < standing.cells {
        return false;
    }
    if arities < MAX_OPERATIONS {
        return false;
    }
    if room < text {
        return false;
    }
    line_room(standing) <= out
}

// Fills `out` from its start with what the lines from a standing on write: whole lines, until the run is over or the next line may want more room than is left.
// For the line at the standing it wants 258 bytes for each element or 4 for each cell, and 256 more, before the first line 514; 131,328 are always enough. A run
// begins at `unread(true)`, and is over where `goes` is false. `arities`, of 16 bytes, and `room`, as long as the text, are lent to every fill of a run and left
// as they are between fills: the arities and the cells of the algebra stand first in them, and the cells behind those in use are left open. With less lent, or
// from a standing that no run comes to, nothing is done and the run is over.
pub fn fill(
    text: &[u8],
    standing: Standing,
    arities: &mut [u8],
    room: &mut [u8],
    out: &mut [u8],
) -> Stepped
    ensures { FillPromiseIn text.entry standing arities.entry room.entry out.entry arities.exit room.exit out.exit result }
{
    if !can_fill(text.len(), standing, arities.len(), room.len(), out.len()) {
        return Stepped {
            standing: unread(false),
            wrote: 0,
        };
    }
    take_lines(text, standing, arities, room, out)
}
