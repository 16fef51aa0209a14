// The calls of the bench, each as a line: what is asked, the answer, and of the sheet that it names the first four bytes, its tally, and the names of the
// points that it holds after the call. A call that names no sheet of the bench shows the eight tallies and the earlier total.
// Answers are printed by hand: a Result has no Display, none can be given to it here, and `io` takes no formatter.
use bench::{Bench, Benched};
use equivalence::Refusal;
use sheet::Sheet;

pub fn print_answer(answer: Result<(), Refusal>) {
    if let Err(reason) = answer {
        printing::print_refused(u8::from(reason));
    } else {
        io::write_all(1, b" done");
    }
}

pub fn print_map(map: [u8; 64]) {
    io::write_all(1, b", map");
    printing::print_bytes(&[map[0], map[1], map[2], map[3]]);
}

pub fn print_tally(tally: u64) {
    io::write_all(1, b", tally ");
    io::print_decimal(1, tally);
}

fn write_name(name: [u8; 8]) {
    io::write_all(1, b" ");
    io::write_all(1, &name);
}

// The names of the held points, in the order of their places.
fn print_names(sheet: Sheet) {
    if sheet.count == 0 {
        return;
    }
    io::write_all(1, b", points");
    for point in sheet.points.iter().take(sheet.count) {
        write_name(point.name);
    }
}

// The map, the tally and the names of a sheet.
fn print_sheet(sheet: Sheet) {
    let map = sheet.map;
    print_map(map);
    print_tally(sheet.tally);
    print_names(sheet);
}

// The tallies of all sheets, and the total of an older bench.
fn print_tallies(bench: Bench) {
    io::write_all(1, b" tallies");
    for sheet in &bench.sheets {
        io::write_all(1, b" ");
        io::print_decimal(1, sheet.tally);
    }
    io::write_all(1, b", earlier ");
    io::print_decimal(1, bench.earlier);
}

// The answer, and the sheet that was named; all tallies where there is no such sheet.
fn print_bench(made: Benched<Bench>, sheet: usize) {
    print_answer(made.answer);
    let on_bench = made.bench;
    if sheet < 8 {
        let shown = on_bench.sheets[sheet];
        print_sheet(shown);
    } else {
        io::write_all(1, b",");
        print_tallies(on_bench);
    }
    io::write_all(1, b"\n");
}

// The answer of a call that makes a bench, all tallies, and the map and the names of one of its sheets.
pub fn print_new(made: Benched<Bench>, shown: Sheet) {
    print_answer(made.answer);
    let map = shown.map;
    print_map(map);
    let on_bench = made.bench;
    io::write_all(1, b",");
    print_tallies(on_bench);
    print_names(shown);
    io::write_all(1, b"\n");
}

// All tallies of a bench, as its calls have left it.
pub fn show(bench: Bench) {
    io::write_all(1, b"the bench:");
    print_tallies(bench);
    io::write_all(1, b"\n");
}

pub fn start(n: usize) -> Bench {
    io::write_all(1, b"start ");
    io::print_decimal(1, n as u64);
    io::write_all(1, b" ->");
    let made = bench::start(n);
    let fresh = made.bench;
    let first = fresh.sheets[0];
    print_new(made, first);
    fresh
}

// Add under an algebra on n elements with these cells of one unary operation.
pub fn add_under(bench: Bench, n: usize, cells: &[u8], sheet: usize, x: usize, y: usize) -> Bench {
    io::write_all(1, b"add to ");
    io::print_decimal(1, sheet as u64);
    io::write_all(1, b": ");
    io::print_decimal(1, x as u64);
    io::write_all(1, b" ");
    io::print_decimal(1, y as u64);
    io::write_all(1, b" ->");
    let made = bench::add(bench, n, b"\x01", cells, sheet, x, y);
    print_bench(made, sheet);
    made.bench
}

pub fn add(bench: Bench, sheet: usize, x: usize, y: usize) -> Bench {
    add_under(bench, 4, b"\x01\x00\x03\x02", sheet, x, y)
}

pub fn clear(bench: Bench, sheet: usize) -> Bench {
    io::write_all(1, b"clear ");
    io::print_decimal(1, sheet as u64);
    io::write_all(1, b" ->");
    let made = bench::clear(bench, sheet);
    print_bench(made, sheet);
    made.bench
}

// A call of a point, as it is said.
fn ask(call: &[u8], sheet: usize, name: [u8; 8]) {
    io::write_all(1, call);
    io::print_decimal(1, sheet as u64);
    write_name(name);
    io::write_all(1, b" ->");
}

pub fn set(bench: Bench, sheet: usize, name: [u8; 8]) -> Bench {
    ask(b"set on ", sheet, name);
    let made = bench::set_point(bench, sheet, name);
    print_bench(made, sheet);
    made.bench
}

pub fn return_to(bench: Bench, sheet: usize, name: [u8; 8]) -> Bench {
    ask(b"return on ", sheet, name);
    let made = bench::return_to(bench, sheet, name);
    print_bench(made, sheet);
    made.bench
}

pub fn forget(bench: Bench, sheet: usize, name: [u8; 8]) -> Bench {
    ask(b"forget on ", sheet, name);
    let made = bench::forget(bench, sheet, name);
    print_bench(made, sheet);
    made.bench
}

pub fn say(line: &[u8]) {
    io::write_all(1, line);
    io::write_all(1, b"\n");
}
