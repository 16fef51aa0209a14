// The desk program: reads bracket text from standard input and writes what it answers to standard output.
//
// A function's storage is touched when it starts, page by page, which costs more than answering a short text. So `main` has little storage, and what is left of
// a run that wants more goes to `finish`, whose own storage is enough for any text.
#![tactic(auto)]

ghost use Rattle.std.specs.Prelude.{◌≡◌, ◌+◌, ◌^◌, ◌≤◌, ◌<◌, length};
ghost use Rattle.bracket.specs.Transcript.{transcript};
ghost use Rattle.desk.specs.Writing.{Next};
ghost use Rattle.desk.specs.InnerRuns.{Lends, LendsMost, WrittenOut, WrittenOutIn, LeftOver};

use algebra::MAX_OPERATIONS;
use bracket::run::{Standing, can_fill, fill, unread};
use writer::write_word;

// The longest text that `main` has storage for, and what it has for output: enough for two binary tables of 64 elements.
const SHORT_TEXT: usize = 32768;

const SHORT_OUT: usize = 36864;

// A run that paused: where it stands, and how many bytes are written out.
#[derive(Clone, Copy, Debug, PartialEq, Eq)]
struct Paused {
    standing: Standing,
    written: usize,
}

// One byte more than the longest text, so that a longer input shows.
fn text_space() -> [u8; 65537]
    ensures { 65537 ≡ length result }
{
    [0; 65537]
}

// What a line may want over 32,768 cells.
fn out_space() -> [u8; 131328]
    ensures { 131328 ≡ length result }
{
    [0; 131328]
}

// Writes out the part that comes next, behind the `written` bytes before it; how many are written then.
fn write_next(text: &[u8], written: usize, part: &[u8]) -> usize
    requires next { Next (transcript text.now) written part.now }
    requires part_bound { written + length part.now < 2 ^ 64 }
    ensures { result ≡ written + length part.now }
{
    io::write_all(1, part);
    written + part.len()
}

// Writes out what a text is answered with, fill by fill, as far as the lent slices are enough.
fn run(text: &[u8], arities: &mut [u8], room: &mut [u8], out: &mut [u8]) -> Paused
    requires { Lends text.now arities.old room.old out.old }
    ensures { WrittenOutIn text.entry arities.exit room.exit result }
{
    let mut standing = unread(true);
    let mut written: usize = 0;
    // A `while`: it ends where no fill can be made.
    while can_fill(text.len(), standing, arities.len(), room.len(), out.len()) {
        let filled = fill(text, standing, arities, room, out);
        let wrote = filled.wrote;
        written = write_next(text, written, &out[0..wrote]);
        standing = filled.standing;
    }
    Paused { standing, written }
}

// The same to the end of the run, from where it paused: the lent slices are enough for any line. How many bytes are written then.
fn run_on(text: &[u8], paused: Paused, arities: &mut [u8], room: &mut [u8], out: &mut [u8]) -> usize
    requires lends_most { LendsMost text.now arities.old room.old out.old }
    requires written_out { WrittenOut text.now arities.old room.old paused }
    ensures { result ≡ length (transcript text.now) }
{
    let mut standing = paused.standing;
    let mut written = paused.written;
    // A `while`: it ends where the run is over.
    while standing.goes {
        let filled = fill(text, standing, arities, room, out);
        let wrote = filled.wrote;
        written = write_next(text, written, &out[0..wrote]);
        standing = filled.standing;
    }
    written
}

// What is left of a run, in storage for the longest text, to which the arities and the cells are carried. How many bytes are written then. It has a loop of its
// own, and is kept apart: else the compiler makes its storage a part of `main`'s.
#[inline(never)]
fn finish(text: &[u8], paused: Paused, arities: &[u8], cells: &[u8]) -> usize
    requires { LeftOver text.now arities.now cells.now paused }
    ensures { result ≡ length (transcript text.now) }
{
    let mut own = [0u8; MAX_OPERATIONS];
    let mut room = text_space();
    let mut out = out_space();
    write_word(arities, &mut own, 0);
    write_word(cells, &mut room, 0);
    run_on(text, paused, &mut own, &mut room, &mut out)
}

// Writes out what a text is answered with; how many bytes that is.
fn write_transcript(text: &[u8]) -> usize
    requires { length text.now ≤ 65537 }
    ensures { result ≡ length (transcript text.now) }
{
    let mut arities = [0u8; MAX_OPERATIONS];
    let mut room = [0u8; SHORT_TEXT];
    if SHORT_TEXT < text.len() {
        let start = Paused {
            standing: unread(true),
            written: 0,
        };
        return finish(text, start, &arities, &room);
    }
    let mut out = [0u8; SHORT_OUT];
    let paused = run(text, &mut arities, &mut room, &mut out);
    let written = paused.written;
    let standing = paused.standing;
    if standing.goes {
        return finish(text, paused, &arities, &room);
    }
    written
}

fn main() {
    let mut input = text_space();
    let length = io::read_full(0, &mut input);
    write_transcript(&input[0..length]);
}
