// Meet, Join, Prefer and pair places on cases that a reader can check by hand: each line is a call, its lent bytes before it all 9, and
// what came of it. A map is written as its bytes.
// Answers are printed by hand: a Result has no Display, none can be given to it here, and `io` takes no formatter.
#![tactic(auto)]

ghost use Rattle.std.specs.Prelude.{◌≤◌};

use equivalence::Refusal;

// The call's name and what it is handed.
fn print_maps(name: &[u8], n: usize, a: &[u8], b: &[u8]) {
    printing::print_call(name, n, a, b);
    io::write_all(1, b" ->");
}

// A call, its answer, and the lent bytes after it.
fn print_written<Call: Fn(usize, &[u8], &[u8], &mut [u8]) -> Result<(), Refusal>>(
    name: &[u8],
    call: Call,
    n: usize,
    a: &[u8],
    b: &[u8],
    lent: &mut [u8],
)
    requires { Call.IsAlwaysCallable call }
{
    print_maps(name, n, a, b);
    if let Err(reason) = call(n, a, b, lent) {
        printing::print_refused(u8::from(reason));
    }
    printing::print_lent(lent);
}

// Meet and Join, each with LENT bytes lent.
fn both<const LENT: usize>(n: usize, a: &[u8], b: &[u8])
    requires { LENT ≤ 5 }
{
    print_written(b"meet", lattice::meet, n, a, b, &mut [9u8; LENT]);
    print_written(b"join", lattice::join, n, a, b, &mut [9u8; LENT]);
}

fn prefer<'a>(n: usize, a: &'a [u8], b: &'a [u8]) {
    print_maps(b"prefer", n, a, b);
    printing::print_bytes(pairorder::prefer(n, a, b));
    io::write_all(1, b"\n");
}

fn place(x: u8, y: u8) {
    io::write_all(1, b"place");
    printing::print_bytes(&[x, y]);
    io::write_all(1, b" -> ");
    if let Some(k) = pairorder::pair_place(x, y) {
        io::print_decimal(1, k as u64);
    } else {
        io::write_all(1, b"nowhere");
    }
    io::write_all(1, b"\n");
}

fn accepted() {
    both::<5>(4, b"\x00\x00\x02\x02", b"\x00\x01\x00\x01");
    both::<5>(4, b"\x00\x00\x02\x02", b"\x00\x01\x01\x03");
    both::<5>(5, b"\x00\x00\x02\x02\x04", b"\x00\x01\x02\x02\x01");
    both::<5>(4, b"\x00\x00\x00\x00", b"\x00\x01\x02\x03");
    both::<5>(1, b"\x00", b"\x00");
    both::<3>(3, b"\x00\x01\x00", b"\x00\x01\x01");
}

fn refused() {
    both::<5>(0, b"", b"");
    both::<5>(65, b"\x00", b"\x00");
    both::<5>(18446744073709551615, b"\x00", b"\x00");
    both::<5>(3, b"\x00\x00", b"\x00\x01\x02");
    both::<5>(3, b"\x00\x01\x02", b"\x00\x01\x02\x03");
    both::<5>(3, b"\x00\x02\x02", b"\x00\x01\x02");
    both::<5>(3, b"\x00\x00\x01", b"\x00\x01\x02");
    both::<3>(4, b"\x00\x00\x02\x02", b"\x00\x01\x00\x01");
    both::<3>(4, b"\x00\x00\x02\x02", b"\x00\x01\x00\xff");
}

fn preferred() {
    prefer(3, b"\x00\x01\x01", b"\x00\x01\x00");
    prefer(3, b"\x00\x00\x02", b"\x00\x01\x00");
    prefer(4, b"\x00\x01\x00\x01", b"\x00\x01\x00\x03");
    prefer(3, b"\x00\x01\x02", b"\x00\x01\x02");
    prefer(3, b"\x00\x01\x02", b"\x00\x01\x03");
    prefer(2, b"\x00\x01\x02", b"\x00\x01");
}

fn places() {
    place(0, 1);
    place(0, 63);
    place(1, 2);
    place(2, 3);
    place(3, 4);
    place(62, 63);
    place(1, 1);
    place(2, 1);
    place(0, 64);
    place(254, 255);
}

fn main() {
    accepted();
    refused();
    preferred();
    places();
}
