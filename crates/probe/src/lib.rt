// Services that have no C function, made callable for the comparisons in tests/ (tests/PROBE.md). Only the tests link this library.
#![tactic(auto)]

ghost use Rattle.std.specs.Prelude.{◌≡◌};
ghost use Rattle.lattice.specs.Calls.{meet_call, join_call};
ghost use Rattle.pairorder.specs.Order.{place_of};
ghost use Rattle.algebra.specs.Algebra.{algebra_in};
ghost use Rattle.congruence.specs.Calls.{quotient_call, certify_call};
ghost use Rattle.equivalence.specs.Outcome.{packed, written_outcome};
ghost use Rattle.congruence.specs.Outcome.{divided_outcome, certified_outcome};
ghost use Rattle.bench.specs.Calls.{start_call, add_call, clear_call, set_call, return_call, forget_call};
ghost use Rattle.outcome.specs.Places.{place_number};
ghost use Rattle.imagecalls.specs.Calls.{image_call, named_call, old_image_call};
ghost use Rattle.probe.specs.Calls.{prefer_copy, head_call};
ghost use Rattle.head.specs.Head.{text_number};
ghost use Rattle.algebratext.specs.Calls.{write_call};

use head::HEAD_LENGTH;

// The answer to a head of another length: a number, since C sees it.
const OTHER_LENGTH: u64 = 255;

// Meet: the reason.
#[unsafe(no_mangle)]
pub extern "C" fn probe_meet(n: usize, a: &[u8], b: &[u8], out: &mut [u8]) -> u32
    ensures value { result ≡ packed (written_outcome (meet_call n a.now b.now out.old).0) }
    ensures out_after { out.new ≡ (meet_call n a.now b.now out.old).1 }
{
    outcome::written_number(lattice::meet(n, a, b, out))
}

// Join: the reason.
#[unsafe(no_mangle)]
pub extern "C" fn probe_join(n: usize, a: &[u8], b: &[u8], out: &mut [u8]) -> u32
    ensures value { result ≡ packed (written_outcome (join_call n a.now b.now out.old).0) }
    ensures out_after { out.new ≡ (join_call n a.now b.now out.old).1 }
{
    outcome::written_number(lattice::join(n, a, b, out))
}

// Prefer: the length of the part handed back, which is copied into out as far as it fits.
#[unsafe(no_mangle)]
pub extern "C" fn probe_prefer<'a>(n: usize, a: &'a [u8], b: &'a [u8], out: &mut [u8]) -> usize
    ensures { (result, out.new) ≡ prefer_copy n a.now b.now out.old }
{
    let part = pairorder::prefer(n, a, b);
    imagepart::copy_part(part, out);
    part.len()
}

// The place of a pair, or 65,535.
#[unsafe(no_mangle)]
pub extern "C" fn probe_place(x: u8, y: u8) -> u32
    ensures { result ≡ place_number (place_of x y) }
{
    outcome::place_number(x, y)
}

// Quotient: the reason, and 256 × blocks.
#[unsafe(no_mangle)]
pub extern "C" fn probe_quotient(
    n: usize,
    arities: &[u8],
    cells: &[u8],
    map: &[u8],
    out: &mut [u8],
) -> u32
    ensures value { result ≡ packed (divided_outcome (quotient_call (algebra_in n arities.entry cells.entry) map.now out.old).0) }
    ensures out_after { out.new ≡ (quotient_call (algebra_in n arities.entry cells.entry) map.now out.old).1 }
{
    outcome::divided_number(congruence::quotient(n, arities, cells, map, out))
}

// Certify: 256 for yes, 0 for no, or the reason.
#[unsafe(no_mangle)]
pub extern "C" fn probe_certify(n: usize, arities: &[u8], cells: &[u8], maps: &[u8]) -> u32
    ensures { result ≡ packed (certified_outcome (certify_call (algebra_in n arities.entry cells.entry) maps.now)) }
{
    outcome::certified_number(congruence::certify(n, arities, cells, maps))
}

// Start, over a bench's image: the reason, or 255 for an image of another length.
#[unsafe(no_mangle)]
pub extern "C" fn probe_bench_start(n: usize, bytes: &mut [u8]) -> u32
    ensures { (result, bytes.new) ≡ image_call (λ _. start_call n) bytes.old }
{
    imagecalls::start(n, bytes)
}

// Add, over a bench's image.
#[unsafe(no_mangle)]
pub extern "C" fn probe_bench_add(
    bytes: &mut [u8],
    n: usize,
    arities: &[u8],
    cells: &[u8],
    sheet: usize,
    x: usize,
    y: usize,
) -> u32
    ensures { (result, bytes.new) ≡ image_call (λ b. add_call b (algebra_in n arities.entry cells.entry) sheet x y) bytes.old }
{
    imagecalls::add(bytes, n, arities, cells, sheet, x, y)
}

// Clear, over a bench's image.
#[unsafe(no_mangle)]
pub extern "C" fn probe_bench_clear(bytes: &mut [u8], sheet: usize) -> u32
    ensures { (result, bytes.new) ≡ image_call (λ b. clear_call b sheet) bytes.old }
{
    imagecalls::clear(bytes, sheet)
}

// Set, over a bench's image and a name: the reason, or 255 where either has another length.
#[unsafe(no_mangle)]
pub extern "C" fn probe_bench_set(bytes: &mut [u8], sheet: usize, name: &[u8]) -> u32
    ensures { (result, bytes.new) ≡ named_call (λ b p. set_call b sheet p) bytes.old name.now }
{
    imagecalls::set_point(bytes, sheet, name)
}

// Return, over a bench's image and a name: the reason, or 255 where either has another length.
#[unsafe(no_mangle)]
pub extern "C" fn probe_bench_return(bytes: &mut [u8], sheet: usize, name: &[u8]) -> u32
    ensures { (result, bytes.new) ≡ named_call (λ b p. return_call b sheet p) bytes.old name.now }
{
    imagecalls::return_to(bytes, sheet, name)
}

// Forget, over a bench's image and a name: the reason, or 255 where either has another length.
#[unsafe(no_mangle)]
pub extern "C" fn probe_bench_forget(bytes: &mut [u8], sheet: usize, name: &[u8]) -> u32
    ensures { (result, bytes.new) ≡ named_call (λ b p. forget_call b sheet p) bytes.old name.now }
{
    imagecalls::forget(bytes, sheet, name)
}

// The conversion of an old bench, whose image's length tells its kind, over that and an image of the next kind: the reason, or 255 where either has
// another length.
#[unsafe(no_mangle)]
pub extern "C" fn probe_bench_convert(old: &[u8], bytes: &mut [u8]) -> u32
    ensures { (result, bytes.new) ≡ old_image_call old.now bytes.old }
{
    imageconversions::convert(old, bytes)
}

// The writer of algebras: the reason, or 256 × the length of the text.
#[unsafe(no_mangle)]
pub extern "C" fn probe_write(n: usize, arities: &[u8], cells: &[u8], out: &mut [u8]) -> u64
    ensures value { result ≡ text_number (write_call (algebra_in n arities.entry cells.entry) out.old).0 }
    ensures out_after { out.new ≡ (write_call (algebra_in n arities.entry cells.entry) out.old).1 }
{
    head::text_number(algebratext::write_algebra(n, arities, cells, out))
}

// The reader of algebras: the reason, and 256 × the number of cells; or 255 for a head of another length than 18.
#[unsafe(no_mangle)]
pub extern "C" fn probe_read(text: &[u8], cells: &mut [u8], head: &mut [u8]) -> u64
    ensures { (result, (cells.new, head.new)) ≡ head_call text.now cells.old head.old }
{
    if head.len() != HEAD_LENGTH {
        return OTHER_LENGTH;
    }
    let read = algebratext::read_algebra(text, cells);
    head::write_head(read, head);
    head::reader_number(read)
}
