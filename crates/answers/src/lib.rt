// The answers to requests: what a service answers, written as a line, and a quotient as the lines of an algebra.
#![tactic(auto)]

ghost use Rattle.std.specs.Prelude.{[], length};
ghost use Rattle.algebra.specs.Algebra.{algebra_in};
ghost use Rattle.theory.specs.Decompose.{most_factor_space};
ghost use Rattle.reader.specs.declared.requests.Asked.TheVariants.{Generate, Contained, Separate, Decompose, Quotient};
ghost use Rattle.answers.specs.Answers.{generated_line, map_line, factors_line, quotient_lines};
ghost use Rattle.tablereader.specs.Laying.{Laid};
ghost use Rattle.answers.specs.InnerPromises.{Answered, LineFits, MapFits, FactorsFit, QuotientFits, Zeros};

use algebra::MAX_CELLS;
use congruence::Decomposed;
use equivalence::Refusal;
use linewriter::{write_factors, write_generated, write_irreducible, write_map, write_refused};
use reader::requests::Asked;
use tablewriter::lines::write_lines;

// The most bytes that maps want: 63 of 64 elements.
const MOST_SPACE: usize = 4032;

// The line for Generate's answer, which wrote the map.
fn write_generate(answer: Result<u8, Refusal>, map: &[u8], out: &mut [u8]) -> usize
    requires { MapFits map.now out.old }
    ensures { Laid out.old 0 (generated_line answer map.now) out.new result }
{
    match answer {
        Ok(count) => write_generated(count, map, out),
        Err(reason) => write_refused(reason, out),
    }
}

// The line for the answer of Contained or of Separate, which wrote the map.
fn write_written(answer: Result<(), Refusal>, map: &[u8], out: &mut [u8]) -> usize
    requires { MapFits map.now out.old }
    ensures { Laid out.old 0 (map_line answer map.now) out.new result }
{
    match answer {
        Ok(()) => write_map(map, out),
        Err(reason) => write_refused(reason, out),
    }
}

// The line for Decompose's answer, which wrote the factors one after another.
fn write_decompose(
    n: usize,
    answer: Result<Decomposed, Refusal>,
    factors: &[u8],
    out: &mut [u8],
) -> usize
    requires { FactorsFit answer n factors.now out.old }
    ensures { Laid out.old 0 (factors_line n answer factors.now) out.new result }
{
    match answer {
        Ok(Decomposed::Factors(count)) => write_factors(n, count as usize, factors, out),
        Ok(Decomposed::Irreducible(x, y)) => write_irreducible(x.0, y.0, out),
        Err(reason) => write_refused(reason, out),
    }
}

// The lines for Quotient's answer, which wrote the cells of the algebra of blocks first.
fn write_quotient(
    answer: Result<u8, Refusal>,
    arities: &[u8],
    cells: &[u8],
    out: &mut [u8],
) -> usize
    requires { QuotientFits answer arities.now cells.now out.old }
    ensures { Laid out.old 0 (quotient_lines arities.now answer cells.now) out.new result }
{
    match answer {
        Ok(count) => write_lines(count as usize, arities, cells, out),
        Err(reason) => write_refused(reason, out),
    }
}

// Generate, lent n zero bytes for the map.
fn answer_generate(
    n: usize,
    arities: &[u8],
    cells: &[u8],
    pairs: &[u8],
    map: &mut [u8],
    out: &mut [u8],
) -> usize
    requires { Zeros n n (length cells.now) map.old out.old }
    ensures { Answered (algebra_in n arities.entry cells.entry) Generate pairs.now out.entry out.exit result }
{
    let answer = congruence::generate(n, arities, cells, pairs, map);
    write_generate(answer, map, out)
}

// Contained, lent n zero bytes for the map.
fn answer_contained(
    n: usize,
    arities: &[u8],
    cells: &[u8],
    given: &[u8],
    map: &mut [u8],
    out: &mut [u8],
) -> usize
    requires { Zeros n n (length cells.now) map.old out.old }
    ensures { Answered (algebra_in n arities.entry cells.entry) Contained given.now out.entry out.exit result }
{
    let answer = congruence::contained(n, arities, cells, given, map);
    write_written(answer, map, out)
}

// Separate, lent n zero bytes for the map.
fn answer_separate(
    n: usize,
    arities: &[u8],
    cells: &[u8],
    v: u8,
    w: u8,
    map: &mut [u8],
    out: &mut [u8],
) -> usize
    requires { Zeros n n (length cells.now) map.old out.old }
    ensures { Answered (algebra_in n arities.entry cells.entry) (Separate v w) [] out.entry out.exit result }
{
    let answer = congruence::separate(n, arities, cells, v as usize, w as usize, map);
    write_written(answer, map, out)
}

// Decompose, lent zero bytes for the factors of any algebra over n elements.
fn answer_decompose(
    n: usize,
    arities: &[u8],
    cells: &[u8],
    factors: &mut [u8],
    out: &mut [u8],
) -> usize
    requires { Zeros (most_factor_space n) n (length cells.now) factors.old out.old }
    ensures { Answered (algebra_in n arities.entry cells.entry) Decompose [] out.entry out.exit result }
{
    let answer = congruence::decompose(n, arities, cells, factors);
    write_decompose(n, answer, factors, out)
}

// Quotient, lent as many zero bytes as the algebra has cells.
fn answer_quotient(
    n: usize,
    arities: &[u8],
    cells: &[u8],
    map: &[u8],
    blocks: &mut [u8],
    out: &mut [u8],
) -> usize
    requires { Zeros (length cells.now) n (length cells.now) blocks.old out.old }
    ensures { Answered (algebra_in n arities.entry cells.entry) Quotient map.now out.entry out.exit result }
{
    let answer = congruence::quotient(n, arities, cells, map, blocks);
    write_quotient(answer, arities, blocks, out)
}

// The answer to a request for a quotient, which alone wants room for cells.
fn answer_cells(n: usize, arities: &[u8], cells: &[u8], map: &[u8], out: &mut [u8]) -> usize
    requires { LineFits n (length cells.now) out.old }
    ensures { Answered (algebra_in n arities.entry cells.entry) Quotient map.now out.entry out.exit result }
{
    let mut space = [0u8; MAX_CELLS];
    answer_quotient(n, arities, cells, map, &mut space[..cells.len()], out)
}

// The answer to what a request asks, with the numbers that were stored for it; a service that writes maps is lent just what any algebra over n elements
// can want.
fn answer_into(
    n: usize,
    arities: &[u8],
    cells: &[u8],
    asked: Asked,
    numbers: &[u8],
    space: &mut [u8],
    out: &mut [u8],
) -> usize
    requires { Zeros 4032 n (length cells.now) space.old out.old }
    ensures { Answered (algebra_in n arities.entry cells.entry) asked numbers.now out.entry out.exit result }
{
    match asked {
        Asked::Generate => answer_generate(n, arities, cells, numbers, &mut space[..n], out),
        Asked::Contained => answer_contained(n, arities, cells, numbers, &mut space[..n], out),
        Asked::Separate(v, w) => answer_separate(n, arities, cells, v, w, &mut space[..n], out),
        Asked::Decompose => answer_decompose(n, arities, cells, &mut space[..(n - 1) * n], out),
        Asked::Quotient => answer_cells(n, arities, cells, numbers, out),
    }
}

// The answer to what a request asks, over an algebra of 1 to 64 elements.
pub fn answer(
    n: usize,
    arities: &[u8],
    cells: &[u8],
    asked: Asked,
    numbers: &[u8],
    out: &mut [u8],
) -> usize
    requires { LineFits n (length cells.now) out.old }
    ensures { Answered (algebra_in n arities.entry cells.entry) asked numbers.now out.entry out.exit result }
{
    let mut space = [0u8; MOST_SPACE];
    answer_into(n, arities, cells, asked, numbers, &mut space, out)
}
