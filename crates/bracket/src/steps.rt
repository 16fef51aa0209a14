// The lines of a run, one by one: what each writes, and where the run stands after it.
ghost use Rattle.std.specs.Prelude.{true, ◌≡◌, ◌+◌, ◌≤◌, ◌<◌, length};
ghost use Rattle.bracket.specs.Transcript.{operation_step, request_step};
ghost use Rattle.bracket.specs.Standings.{Sound, Kept};
ghost use Rattle.bracket.specs.InnerSteps.{Lent, behind_lines, RefusedAt, AfterLine, FirstStepIn, StepIn, DueIn};

use crate::run::{Standing, Stepped};
use answers::answer;
use equivalence::Refusal;
use linewriter::write_refused;
use numberreader::begins_with;
use reader::requests::read_request;
use reader::taking::{AlgebraSoFar, take_operation_line, take_size_line};
use tablereader::Spot;

// The longest text that is read.
const TEXT_LIMIT: usize = 65536;

// Where a run stands behind the lines of its algebra, before any request.
impl From<AlgebraSoFar> for Standing {
    ghost from_gives = { λ algebra standing. standing ≡ behind_lines algebra };

    fn from(algebra: AlgebraSoFar) -> Standing {
        Standing {
            goes: true,
            at: algebra.at,
            size: algebra.size,
            operations: algebra.operations,
            cells: algebra.cells,
            requested: false,
        }
    }
}

// A refusal of a line, which ends the run where it stands.
fn refused(reason: Refusal, standing: Standing, out: &mut [u8]) -> Stepped
    requires { 14 ≤ length out.old }
    ensures { RefusedAt reason standing out.old out.new result }
{
    let wrote = write_refused(reason, out);
    Stepped {
        standing: Standing {
            goes: false,
            ..standing
        },
        wrote,
    }
}

// What a line of the algebra makes of the run: it writes nothing, and a refusal of it ends the run.
fn after_line(line: Result<AlgebraSoFar, Refusal>, standing: Standing, out: &mut [u8]) -> Stepped
    requires { 14 ≤ length out.old }
    ensures { AfterLine line standing out.old out.new result }
{
    match line {
        Ok(algebra) => Stepped {
            standing: Standing::from(algebra),
            wrote: 0,
        },
        Err(reason) => refused(reason, standing, out),
    }
}

// The first line of a text, which is its size line. A longer text than is read is 14.
fn first_step(text: &[u8], standing: Standing, out: &mut [u8]) -> Stepped
    requires sound { Sound text.now standing }
    requires out_room { 14 ≤ length out.old }
    ensures { FirstStepIn text.entry out.entry out.exit result }
{
    if TEXT_LIMIT < text.len() {
        return refused(Refusal::Text, standing, out);
    }
    let line = take_size_line(text, 0);
    after_line(line, standing, out)
}

// An operation line, which begins with `[op`.
fn operation_step(
    text: &[u8],
    standing: Standing,
    arities: &mut [u8],
    room: &mut [u8],
    out: &mut [u8],
) -> Stepped
    requires sound { Sound text.now standing }
    requires lent { Lent text.now standing arities.old room.old out.old }
    requires at_in_bounds { standing.at + 3 ≤ length text.now }
    ensures step_in { StepIn operation_step text.now standing arities.old room.old out.old arities.new room.new out.new result }
    ensures kept { Kept standing arities.old room.old result.standing arities.new room.new }
{
    let algebra = AlgebraSoFar {
        at: standing.at,
        size: standing.size,
        operations: standing.operations,
        cells: standing.cells,
    };
    let line = take_operation_line(text, algebra, arities, room);
    after_line(line, standing, out)
}

// A line that is no operation: a request, or a fault.
fn request_step(
    text: &[u8],
    standing: Standing,
    arities: &[u8],
    room: &mut [u8],
    out: &mut [u8],
) -> Stepped
    requires sound { Sound text.now standing }
    requires lent { Lent text.now standing arities.now room.old out.old }
    requires at_nonzero { 0 < standing.at }
    ensures step_in { StepIn request_step text.now standing arities.now room.old out.old arities.now room.new out.new result }
    ensures kept { Kept standing arities.now room.old result.standing arities.now room.new }
{
    let cells = standing.cells;
    let from = Spot {
        at: standing.at,
        put: cells,
    };
    let Some(line) = read_request(text, from, room) else {
        return refused(Refusal::Text, standing, out);
    };
    let wrote = answer(
        standing.size as usize,
        &arities[0..standing.operations],
        &room[0..cells],
        line.asked,
        &room[cells..line.end],
        out,
    );
    Stepped {
        standing: Standing {
            goes: true,
            at: line.next,
            requested: true,
            ..standing
        },
        wrote,
    }
}

// The line at which a run stands, from a sound standing and with enough lent.
pub fn next_step(
    text: &[u8],
    standing: Standing,
    arities: &mut [u8],
    room: &mut [u8],
    out: &mut [u8],
) -> Stepped
    requires sound { Sound text.now standing }
    requires lent { Lent text.now standing arities.old room.old out.old }
    requires goes_value { standing.goes ≡ true }
    ensures due_in { DueIn text.entry standing arities.entry room.entry out.entry arities.exit room.exit out.exit result }
    ensures kept { Kept standing arities.old room.old result.standing arities.new room.new }
{
    if standing.at == 0 {
        return first_step(text, standing, out);
    }
    if standing.requested {
        return request_step(text, standing, arities, room, out);
    }
    if begins_with(text, standing.at, b"[op") {
        return operation_step(text, standing, arities, room, out);
    }
    request_step(text, standing, arities, room, out)
}
