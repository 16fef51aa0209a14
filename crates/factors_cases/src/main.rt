// Decompose on cases that a reader can check by hand: each line is a call on the bytes n, arities and cells, its lent bytes before it all 9, and what came
// of it. Then the calls of demand 3's claim together: the first answer, how many of the last calls answered 11, and the two lent slices.
// Answers are printed by hand: a Result has no Display, none can be given to it here, and `io` takes no formatter.
#![tactic(auto)]

ghost use Rattle.std.specs.Prelude.{◌≤◌};

use congruence::Decomposed;
use equivalence::Refusal;

// The call's name and the algebra.
fn print_algebra(name: &[u8], n: usize, arities: &[u8], cells: &[u8]) {
    printing::print_call(name, n, arities, cells);
    io::write_all(1, b" | ->");
}

fn print_decomposed(answer: Result<Decomposed, Refusal>) {
    match answer {
        Ok(Decomposed::Factors(count)) => {
            printing::print_bytes(&[count]);
        }
        Ok(Decomposed::Irreducible(x, y)) => {
            io::write_all(1, b" refused");
            printing::print_bytes(&[11, x.0, y.0]);
        }
        Err(reason) => {
            printing::print_refused(u8::from(reason));
        }
    }
}

fn decompose_lent<const LENT: usize>(n: usize, arities: &[u8], cells: &[u8])
    requires { LENT ≤ 64 }
{
    let mut lent = [9u8; LENT];
    print_algebra(b"decompose", n, arities, cells);
    print_decomposed(congruence::decompose(n, arities, cells, &mut lent));
    printing::print_lent(&lent);
}

fn decompose(n: usize, arities: &[u8], cells: &[u8]) {
    decompose_lent::<13>(n, arities, cells);
}

// Just the room that two factors over four elements want.
fn decompose_exact(n: usize, arities: &[u8], cells: &[u8]) {
    decompose_lent::<8>(n, arities, cells);
}

// One byte less.
fn decompose_short(n: usize, arities: &[u8], cells: &[u8]) {
    decompose_lent::<7>(n, arities, cells);
}

// No room at all.
fn decompose_unlent(n: usize, arities: &[u8], cells: &[u8]) {
    decompose_lent::<0>(n, arities, cells);
}

// The two lent slices end the line.
fn print_lent(list: &[u8], tables: &[u8]) {
    io::write_all(1, b" :");
    printing::print_bytes(list);
    io::write_all(1, b" |");
    printing::print_bytes(tables);
    io::write_all(1, b"\n");
}

fn claim_into(n: usize, arities: &[u8], cells: &[u8], list: &mut [u8], tables: &mut [u8]) {
    print_algebra(b"claim", n, arities, cells);
    let made = claim::decompose_factors(n, arities, cells, list, tables);
    print_decomposed(made.first);
    io::write_all(1, b" irreducible ");
    io::print_decimal(1, made.irreducible as u64);
    print_lent(list, tables);
}

// The quotients have two elements here: two cells of a unary operation, four of a binary one.
fn claim(n: usize, arities: &[u8], cells: &[u8]) {
    let mut list = [9u8; 12];
    let mut tables = [9u8; 5];
    claim_into(n, arities, cells, &mut list, &mut tables);
}

// Document 01's examples 6 to 11.
fn examples() {
    decompose(4, b"\x01", b"\x01\x00\x03\x02");
    decompose(4, b"\x01", b"\x01\x02\x03\x00");
    decompose(3, b"", b"");
    decompose(2, b"", b"");
    decompose(1, b"", b"");
    decompose(3, b"\x02", b"\x00\x00\x00\x00\x01\x01\x00\x01\x02");
}

// No operations, n = 4; the minimum on a chain of four; the group of two bits under exclusive or; the cyclic group of four, which is irreducible; the minimum of
// two bits; U with a constant, which imposes nothing.
fn more() {
    decompose(4, b"", b"");
    decompose(
        4,
        b"\x02",
        b"\x00\x00\x00\x00\x00\x01\x01\x01\x00\x01\x02\x02\x00\x01\x02\x03",
    );
    decompose(
        4,
        b"\x02",
        b"\x00\x01\x02\x03\x01\x00\x03\x02\x02\x03\x00\x01\x03\x02\x01\x00",
    );
    decompose(
        4,
        b"\x02",
        b"\x00\x01\x02\x03\x01\x02\x03\x00\x02\x03\x00\x01\x03\x00\x01\x02",
    );
    decompose(
        4,
        b"\x02",
        b"\x00\x00\x00\x00\x00\x01\x00\x01\x00\x00\x02\x02\x00\x01\x02\x03",
    );
    decompose(4, b"\x00\x01", b"\x03\x01\x00\x03\x02");
}

// The room wanted is enough, and one byte less is 9, as is none; an irreducible algebra wants none.
fn room() {
    decompose_exact(4, b"\x01", b"\x01\x00\x03\x02");
    decompose_short(4, b"\x01", b"\x01\x00\x03\x02");
    decompose_unlent(4, b"\x01", b"\x01\x00\x03\x02");
    decompose_unlent(4, b"\x01", b"\x01\x02\x03\x00");
}

// 1 and 6, the latter also where nothing is lent.
fn refused() {
    decompose(65, b"", b"");
    decompose(2, b"\x01", b"\x00\x02");
    decompose_unlent(2, b"\x01", b"\x00\x02");
}

fn claims() {
    claim(4, b"\x01", b"\x01\x00\x03\x02");
    claim(
        4,
        b"\x02",
        b"\x00\x00\x00\x00\x00\x01\x01\x01\x00\x01\x02\x02\x00\x01\x02\x03",
    );
    claim(4, b"\x01", b"\x01\x02\x03\x00");
}

fn main() {
    examples();
    more();
    room();
    refused();
    claims();
}
