// Writing the lines of answers into a lent buffer, each from its start on.
#![tactic(auto)]

ghost use Rattle.std.specs.Prelude.{[], ◌∷◌, ◌++◌, map, ◌+◌, ◌*◌, ◌≤◌, ◌<◌, length};
ghost use Rattle.equivalence.specs.Lists.{up_to};
ghost use Rattle.equivalence.specs.Lent.{stretch};
ghost use Rattle.numberreader.specs.Reading.{ascii};
ghost use Rattle.tablereader.specs.Laying.{Laid};
ghost use Rattle.writer.specs.Lines.{spaced, spaced_brackets, refused_line};
ghost use Rattle.writer.specs.InnerRoom.{LaidLine, FactorsRoom};

use algebra::largest;
use equivalence::Refusal;
use writer::{
    write_bracketed, write_close, write_gap, write_spaced, write_spaced_number, write_word,
};

// Numbers in a bracket after a space.
fn write_spaced_bracket(m: &[u8], out: &mut [u8], put: usize) -> usize
    requires { (0 < length m.now) × (put + 4 * length m.now + 3 ≤ length out.old) }
    ensures laid { Laid out.old put (spaced_brackets (m.now ∷ [])) out.new result }
    ensures short { result ≤ put + 4 * length m.now + 2 }
{
    let after = write_gap(out, put);
    write_bracketed(m, out, after)
}

// Lists of n numbers that follow each other, each in a bracket after a space.
fn write_maps(n: usize, count: usize, maps: &[u8], out: &mut [u8], put: usize) -> usize
    requires { ((0 < n) × (put + count * (4 * n + 2) + 1 ≤ length out.old)) × (count * n ≤ length maps.now) }
    ensures laid { Laid out.old put (spaced_brackets (map (stretch n maps.now) (up_to count))) out.new result }
    ensures short { result ≤ put + count * (4 * n + 2) }
{
    let mut at = put;
    for i in 0..count {
        let from = i * n;
        at = write_spaced_bracket(&maps[from..from + n], out, at);
    }
    at
}

// `[refused 8]`
pub fn write_refused(r: Refusal, out: &mut [u8]) -> usize
    requires { 14 ≤ length out.old }
    ensures { Laid out.old 0 (refused_line r) out.new result }
{
    let word = write_word(b"[refused", out, 0);
    let end = write_spaced_number(u8::from(r), out, word);
    write_close(out, end)
}

// Three numbers, each after a space.
fn write_three(a: u8, b: u8, c: u8, out: &mut [u8], put: usize) -> usize
    requires { put + 12 ≤ length out.old }
    ensures laid { Laid out.old put (spaced (a ∷ b ∷ c ∷ [])) out.new result }
    ensures short { result ≤ put + 12 }
{
    let first = write_spaced_number(a, out, put);
    let second = write_spaced_number(b, out, first);
    write_spaced_number(c, out, second)
}

// `[refused 11 0 2]`
pub fn write_irreducible(x: u8, y: u8, out: &mut [u8]) -> usize
    requires { 22 ≤ length out.old }
    ensures { LaidLine (ascii "[refused") (spaced (11 ∷ x ∷ y ∷ [])) out.entry out.exit result }
{
    let word = write_word(b"[refused", out, 0);
    let end = write_three(11, x, y, out, word);
    write_close(out, end)
}

// `[map 0 0 2 3]`
pub fn write_map(m: &[u8], out: &mut [u8]) -> usize
    requires { 4 * length m.now + 6 ≤ length out.old }
    ensures { LaidLine (ascii "[map") (spaced m.now) out.entry out.exit result }
{
    let top = largest(m);
    let word = write_word(b"[map", out, 0);
    let end = write_spaced(top, m, out, word);
    write_close(out, end)
}

// `[generated 2 [0 1 0 1]]`
pub fn write_generated(merges: u8, m: &[u8], out: &mut [u8]) -> usize
    requires { (0 < length m.now) × (4 * length m.now + 18 ≤ length out.old) }
    ensures { LaidLine (ascii "[generated") (spaced (merges ∷ []) ++ spaced_brackets (m.now ∷ [])) out.entry out.exit result }
{
    let word = write_word(b"[generated", out, 0);
    let number = write_spaced_number(merges, out, word);
    let end = write_spaced_bracket(m, out, number);
    write_close(out, end)
}

// `[factors [0 1 0 1] [0 0 2 2]]`
pub fn write_factors(n: usize, count: usize, maps: &[u8], out: &mut [u8]) -> usize
    requires { FactorsRoom n count maps.now out.old }
    ensures { LaidLine (ascii "[factors") (spaced_brackets (map (stretch n maps.now) (up_to count))) out.entry out.exit result }
{
    let word = write_word(b"[factors", out, 0);
    let end = write_maps(n, count, maps, out, word);
    write_close(out, end)
}
