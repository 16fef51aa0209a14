// Generate, Contained, Separate, Quotient and Certify on cases that a reader can check by hand: each line is a call on the bytes n, arities, cells and
// the service's own input, its lent bytes before it all 9, and what came of it.
// Answers are printed by hand: a Result has no Display, none can be given to it here, and `io` takes no formatter.
#![tactic(auto)]

ghost use Rattle.std.specs.Prelude.{◌≤◌};

use equivalence::Refusal;

// The call's name, the algebra and the service's own input.
fn print_call(name: &[u8], n: usize, arities: &[u8], cells: &[u8], input: &[u8]) {
    printing::print_call(name, n, arities, cells);
    io::write_all(1, b" |");
    printing::print_bytes(input);
    io::write_all(1, b" ->");
}

fn print_refused(reason: Refusal) {
    printing::print_refused(u8::from(reason));
}

fn print_written(answer: Result<(), Refusal>, lent: &[u8]) {
    if let Err(reason) = answer {
        print_refused(reason);
    }
    printing::print_lent(lent);
}

// How many merges, or blocks.
fn print_counted(answer: Result<u8, Refusal>) {
    match answer {
        Ok(count) => print_count(count),
        Err(reason) => print_refused(reason),
    }
}

fn print_count(count: u8) {
    printing::print_bytes(&[count]);
}

fn generate_lent<const LENT: usize>(n: usize, arities: &[u8], cells: &[u8], pairs: &[u8])
    requires { LENT ≤ 64 }
{
    let mut lent = [9u8; LENT];
    print_call(b"generate", n, arities, cells, pairs);
    print_counted(congruence::generate(n, arities, cells, pairs, &mut lent));
    printing::print_lent(&lent);
}

fn generate(n: usize, arities: &[u8], cells: &[u8], pairs: &[u8]) {
    generate_lent::<5>(n, arities, cells, pairs);
}

fn generate_short(n: usize, arities: &[u8], cells: &[u8], pairs: &[u8]) {
    generate_lent::<3>(n, arities, cells, pairs);
}

fn contained(n: usize, arities: &[u8], cells: &[u8], map: &[u8]) {
    print_call(b"contained", n, arities, cells, map);
    let mut lent = [9u8; 5];
    let answer = congruence::contained(n, arities, cells, map, &mut lent);
    print_written(answer, &lent);
}

fn separate(n: usize, arities: &[u8], cells: &[u8], v: usize, w: usize) {
    printing::print_call(b"separate", n, arities, cells);
    io::write_all(1, b" | ");
    io::print_decimal(1, v as u64);
    io::write_all(1, b" ");
    io::print_decimal(1, w as u64);
    io::write_all(1, b" ->");
    separate_printed(n, arities, cells, v, w);
}

fn separate_printed(n: usize, arities: &[u8], cells: &[u8], v: usize, w: usize) {
    let mut lent = [9u8; 5];
    let answer = congruence::separate(n, arities, cells, v, w, &mut lent);
    print_written(answer, &lent);
}

fn quotient_lent<const LENT: usize>(n: usize, arities: &[u8], cells: &[u8], map: &[u8])
    requires { LENT ≤ 64 }
{
    let mut lent = [9u8; LENT];
    print_call(b"quotient", n, arities, cells, map);
    print_counted(congruence::quotient(n, arities, cells, map, &mut lent));
    printing::print_lent(&lent);
}

fn quotient(n: usize, arities: &[u8], cells: &[u8], map: &[u8]) {
    quotient_lent::<5>(n, arities, cells, map);
}

fn quotient_short(n: usize, arities: &[u8], cells: &[u8], map: &[u8]) {
    quotient_lent::<2>(n, arities, cells, map);
}

fn print_certified(answer: Result<bool, Refusal>) {
    match answer {
        Ok(true) => print_word(b" yes"),
        Ok(false) => print_word(b" no"),
        Err(reason) => print_refused(reason),
    }
}

fn print_word(word: &[u8]) {
    io::write_all(1, word);
}

fn certify(n: usize, arities: &[u8], cells: &[u8], maps: &[u8]) {
    print_call(b"certify", n, arities, cells, maps);
    print_certified(congruence::certify(n, arities, cells, maps));
    io::write_all(1, b"\n");
}

// Document 01's examples 1 to 5, and C with (0, 1), whose pairs are found in more than one round.
fn examples() {
    generate(4, b"\x01", b"\x01\x00\x03\x02", b"\x00\x02");
    generate(4, b"\x01", b"\x01\x00\x03\x02", b"\x02\x03");
    generate(4, b"\x01", b"\x01\x00\x03\x02", b"");
    contained(4, b"\x01", b"\x01\x00\x03\x02", b"\x00\x00\x00\x03");
    separate(4, b"\x01", b"\x01\x00\x03\x02", 0, 1);
    generate(4, b"\x01", b"\x01\x02\x03\x00", b"\x00\x01");
}

// Equal pairs, repeated pairs and pairs with the larger element first; the map that joins everything; v and w exchanged; n = 1; a binary operation.
fn edges() {
    generate(4, b"\x01", b"\x01\x00\x03\x02", b"\x03\x03\x02\x00\x02\x00");
    generate(1, b"\x00", b"\x00", b"\x00\x00");
    contained(4, b"\x01", b"\x01\x02\x03\x00", b"\x00\x00\x00\x00");
    contained(4, b"\x01", b"\x01\x02\x03\x00", b"\x00\x01\x00\x03");
    separate(4, b"\x01", b"\x01\x00\x03\x02", 1, 0);
    separate(3, b"\x02", b"\x00\x00\x00\x00\x01\x01\x00\x01\x02", 2, 1);
    generate(
        3,
        b"\x02",
        b"\x00\x00\x00\x00\x01\x01\x00\x01\x02",
        b"\x00\x02",
    );
}

// Quotients of U, of a nullary operation beside it, and of the binary minimum; a buffer with just the room wanted.
fn quotients() {
    quotient(4, b"\x01", b"\x01\x00\x03\x02", b"\x00\x01\x00\x01");
    quotient(4, b"\x01\x00", b"\x01\x00\x03\x02\x03", b"\x00\x00\x02\x02");
    quotient(
        3,
        b"\x02",
        b"\x00\x00\x00\x00\x01\x01\x00\x01\x02",
        b"\x00\x01\x01",
    );
    quotient_short(4, b"\x01", b"\x01\x00\x03\x02", b"\x00\x00\x02\x02");
}

// The small inputs of reasons 1 to 6.
fn refused_algebras() {
    generate(65, b"", b"", b"");
    generate(0, b"", b"", b"");
    contained(
        2,
        b"\x00\x00\x00\x00\x00\x00\x00\x00\x00\x00\x00\x00\x00\x00\x00\x00\x00",
        b"",
        b"\x00\x01",
    );
    separate(2, b"\x04", b"", 0, 1);
    quotient(64, b"\x03", b"", b"");
    generate(2, b"\x01", b"\x00", b"");
    generate(2, b"\x01", b"\x00\x02", b"");
}

// Those of 7 to 12, and the lower of two reasons: 7 before 9, 9 before 10, 9 before 12.
fn refused_calls() {
    generate(2, b"", b"", b"\x00\x02");
    generate(2, b"", b"", b"\x00");
    separate(4, b"", b"", 256, 0);
    contained(3, b"", b"", b"\x00\x02\x02");
    contained(3, b"", b"", b"\x00\x01\x02\x03");
    generate_short(4, b"", b"", b"");
    generate_short(4, b"", b"", b"\x00\x04");
    separate(4, b"", b"", 1, 1);
    separate(6, b"", b"", 1, 1);
    quotient(4, b"\x01", b"\x01\x00\x03\x02", b"\x00\x01\x00\x03");
    quotient_short(4, b"\x01", b"\x01\x00\x03\x02", b"\x00\x01\x00\x03");
}

// U's factors, the identity of an irreducible algebra, and no map at all over one element.
fn certified() {
    certify(
        4,
        b"\x01",
        b"\x01\x00\x03\x02",
        b"\x00\x01\x00\x01\x00\x00\x02\x02",
    );
    certify(4, b"\x01", b"\x01\x02\x03\x00", b"\x00\x01\x02\x03");
    certify(1, b"", b"", b"");
}

// What each condition says no to: a map that is no congruence; a list, and no map at all, that does not meet in the identity; a map repeated, and
// one that is the identity beside another; the identity of a reducible algebra, and the map with one block.
fn not_certified() {
    certify(
        4,
        b"\x01",
        b"\x01\x00\x03\x02",
        b"\x00\x01\x00\x03\x00\x00\x02\x02",
    );
    certify(4, b"\x01", b"\x01\x00\x03\x02", b"\x00\x01\x00\x01");
    certify(4, b"\x01", b"\x01\x00\x03\x02", b"");
    certify(
        4,
        b"\x01",
        b"\x01\x00\x03\x02",
        b"\x00\x01\x00\x01\x00\x00\x02\x02\x00\x01\x00\x01",
    );
    certify(2, b"", b"", b"\x00\x01\x00\x00");
    certify(4, b"\x01", b"\x01\x00\x03\x02", b"\x00\x01\x02\x03");
    certify(1, b"", b"", b"\x00");
}

// 63 maps are a list, 64 are not; a length that is no multiple of n, and a second member that is no map; and 5 before 8.
fn refused_lists() {
    certify(
        1,
        b"",
        b"",
        b"\x00\x00\x00\x00\x00\x00\x00\x00\x00\x00\x00\x00\x00\x00\x00\x00\x00\x00\x00\x00\x00\x00\x00\x00\x00\x00\x00\x00\x00\x00\x00\x00\x00\x00\x00\x00\x00\x00\x00\x00\x00\x00\x00\x00\x00\x00\x00\x00\x00\x00\x00\x00\x00\x00\x00\x00\x00\x00\x00\x00\x00\x00\x00",
    );
    certify(
        1,
        b"",
        b"",
        b"\x00\x00\x00\x00\x00\x00\x00\x00\x00\x00\x00\x00\x00\x00\x00\x00\x00\x00\x00\x00\x00\x00\x00\x00\x00\x00\x00\x00\x00\x00\x00\x00\x00\x00\x00\x00\x00\x00\x00\x00\x00\x00\x00\x00\x00\x00\x00\x00\x00\x00\x00\x00\x00\x00\x00\x00\x00\x00\x00\x00\x00\x00\x00\x00",
    );
    certify(2, b"", b"", b"\x00\x01\x00");
    certify(2, b"", b"", b"\x00\x01\x00\x02");
    certify(2, b"\x01", b"\x00", b"\x00\x02");
}

fn main() {
    examples();
    edges();
    quotients();
    refused_algebras();
    refused_calls();
    certified();
    not_certified();
    refused_lists();
}
