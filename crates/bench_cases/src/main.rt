// The calls of the bench and the conversions of old benches on cases that a reader can check by hand, a short class hour with points, and one that two
// lecturers share. The algebra has the elements 0 to 3 and one unary operation with cells 1 0 3 2, but where a line says otherwise.
#![tactic(auto)]

use bench::Bench;
use lines::{add, add_under, clear, forget, return_to, say, set, show, start};
use samples::{bytes, forged, plain, pointed, tallied};

mod lines;
mod old_kinds;
mod samples;

// Adds, a Clear and a new Start; sheet 7 beside sheet 0.
fn work() -> Bench {
    let fresh = start(4);
    let one = add(fresh, 0, 0, 2);
    let two = add(one, 7, 2, 3);
    let three = add(two, 0, 0, 1);
    let four = clear(three, 0);
    let five = add(four, 0, 3, 2);
    say(b"under cells 1 2 3 0, an equal pair:");
    let six = add_under(five, 4, b"\x01\x02\x03\x00", 0, 1, 1);
    show(six);
    six
}

// What is declined, each on the bench that the work left.
fn declined(bench: Bench) {
    let n = start(65);
    let zeros_cleared = clear(n, 0);
    let zeros_added = add(n, 0, 0, 1);
    let sheet = add(bench, 8, 0, 1);
    let element = add(bench, 0, 0, 4);
    let cleared = clear(bench, 8);
    say(b"under two elements and cells 1 0:");
    let other = add_under(bench, 2, b"\x01\x00", 0, 0, 1);
    say(b"under cells 1 0 3 4, and 1 0 3:");
    let cell = add_under(bench, 4, b"\x01\x00\x03\x04", 0, 0, 1);
    let length = add_under(bench, 4, b"\x01\x00\x03", 0, 0, 1);
}

fn edges() {
    say(b"sheet 5 is 0 2 2 3:");
    let faulty = forged(plain(bytes(2)));
    let unnamed = add(faulty, 0, 0, 1);
    let cleared = clear(faulty, 5);
}

// The top of a tally: 13 looks at the tally of the sheet that an Add names, and at no other number.
fn tops() {
    say(b"the tally of sheet 5 one below its top:");
    let near = forged(tallied(18446744073709551614));
    let passed = add(near, 5, 0, 2);
    let at_top = add(passed, 5, 0, 1);
    say(b"and at it, where a pair that is held loses no block:");
    let held = add(at_top, 5, 1, 0);
    let over = add(held, 5, 2, 3);
    say(b"its neighbour has a tally of its own:");
    let beside = add(over, 6, 2, 3);
    say(b"a cleared sheet keeps its tally:");
    let cleared = clear(beside, 5);
    let again = add(cleared, 5, 2, 3);
    show(again);
}

// A class hour with points, on sheet 0 and beside it on sheet 3: a pair is tried, looked at, and gone back from.
fn hour() -> Bench {
    say(b"a class hour:");
    let fresh = start(4);
    let begun = set(fresh, 0, *b"identity");
    let tried = add(begun, 0, 0, 1);
    let kept = set(tried, 0, *b"zero=one");
    let joined = add(kept, 0, 1, 2);
    let back = return_to(joined, 0, *b"zero=one");
    let other = add(back, 0, 2, 3);
    say(b"the name again, with the map of now; sheet 3 has names of its own:");
    let again = set(other, 0, *b"zero=one");
    let beside = set(again, 3, *b"identity");
    let start_again = return_to(beside, 0, *b"identity");
    let now = return_to(start_again, 0, *b"zero=one");
    let cleared = clear(now, 0);
    say(b"a name that is forgotten, or of another sheet, or written otherwise:");
    let gone = forget(cleared, 0, *b"identity");
    let unknown = return_to(gone, 0, *b"identity");
    let elsewhere = return_to(unknown, 3, *b"zero=one");
    forget(elsewhere, 3, *b"Identity")
}

// Two lecturers share a bench: each has a sheet, and the tally beside it counts what that one lost.
fn lecturers() {
    say(b"two lecturers share the bench, one on sheet 1, one on sheet 2:");
    let fresh = start(4);
    let first = add(fresh, 1, 0, 1);
    let second = add(first, 2, 0, 2);
    let kept = set(second, 1, *b"zero=one");
    let cleared = clear(kept, 2);
    let joined = add(cleared, 1, 1, 2);
    let other = add(joined, 2, 0, 3);
    let back = return_to(other, 1, *b"zero=one");
    show(back);
}

// The bench with the map of sheet 6 stored under the name that ends so.
fn stored(bench: Bench, last: u8) -> Bench {
    let made = bench::set_point(bench, 6, [b'n', b'u', b'm', b'b', b'e', b'r', b'-', last]);
    made.bench
}

// Eight points; a ninth name is declined, and a held one is not; then a place is free, and the last point has taken the one that was given up.
fn many(bench: Bench) -> Bench {
    say(b"eight points on sheet 6:");
    let four = stored(stored(stored(stored(bench, b'1'), b'2'), b'3'), b'4');
    let eight = stored(stored(stored(stored(four, b'5'), b'6'), b'7'), b'8');
    let declined = set(eight, 6, *b"number-9");
    let replaced = set(declined, 6, *b"number-8");
    let freed = forget(replaced, 6, *b"number-2");
    let filled = set(freed, 6, *b"number-9");
    set(filled, 8, *b"number-9")
}

// Faults of points, each on sheet 5; the calls name sheet 0.
fn faulty_points() {
    say(b"sheet 5 holds a point, 0 0 2 3; two of one name; one that is 0 2 2 3; nine:");
    let right = clear(forged(pointed(1, bytes(0))), 0);
    let twins = clear(forged(pointed(2, bytes(0))), 0);
    let no_map = set(forged(pointed(1, bytes(2))), 0, *b"identity");
    let nine = add(forged(pointed(9, bytes(0))), 0, 0, 1);
    say(b"and none, though its places have all that:");
    let free = clear(forged(pointed(0, bytes(2))), 0);
}

fn main() {
    let left = work();
    declined(left);
    edges();
    tops();
    let taught = hour();
    let full = many(taught);
    lecturers();
    faulty_points();
    old_kinds::converted();
    old_kinds::chains();
    old_kinds::unconverted();
}
