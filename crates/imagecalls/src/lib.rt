// Calls of the bench over its image.
#![tactic(auto)]

ghost use Rattle.std.specs.Prelude.{◌≡◌, ◌≢◌, length, MatchOption};
ghost use Rattle.algebra.specs.Algebra.{algebra_in};
ghost use Rattle.equivalence.specs.Outcome.{packed};
ghost use Rattle.benchsheets.specs.declared.Bench.{Bench};
ghost use Rattle.bench.specs.declared.Benched.{Benched};
ghost use Rattle.bench.specs.Outcome.{answer_outcome};
ghost use Rattle.bench.specs.Calls.{start_call, add_call, clear_call, set_call, return_call, forget_call};
ghost use Rattle.imagecalls.specs.Calls.{bench_shown, image_call, named_call};

use bench::{Bench, Benched};
use equivalence::Refusal;
use image::LENGTH as IMAGE_LENGTH;
use sheet::NAME_BYTES;

// The answer to an image, or a name, of another length. A number and no case of an enum: C sees it.
pub const OTHER_LENGTH: u32 = 255;

// The number of the bench's answer.
pub fn answer_number(answer: Result<(), Refusal>) -> u32
    ensures { result ≡ packed (answer_outcome answer) }
{
    match answer {
        Ok(()) => outcome::succeeded(0),
        Err(reason) => outcome::refused(reason),
    }
}

// Writes the image of the bench that a call gave, and gives the number of its answer.
pub fn show(done: Benched<Bench>, bytes: &mut [u8]) -> u32
    requires { length bytes.old ≡ 5201 }
    ensures { (result, bytes.new) ≡ bench_shown done }
{
    image::write(done.bench, bytes);
    answer_number(done.answer)
}

// Start, over a bench's image: the reason, or 255 for an image of another length.
pub fn start(n: usize, bytes: &mut [u8]) -> u32
    ensures { (result, bytes.new) ≡ image_call (λ _. start_call n) bytes.old }
{
    if bytes.len() != IMAGE_LENGTH {
        return OTHER_LENGTH;
    }
    let done = bench::start(n);
    show(done, bytes)
}

// A call over a bench's image: the reason, or 255 for an image of another length.
fn over_image<F: FnOnce(Bench) -> Benched<Bench>>(bytes: &mut [u8], call: F) -> u32
    requires { F.IsAlwaysCallable call }
    ensures { (given : Bench → Benched Bench) → ((b : Bench) (r : Benched Bench) → F.post call b r → r ≡ given b) → (result, bytes.new) ≡ image_call given bytes.old }
{
    if bytes.len() != IMAGE_LENGTH {
        return OTHER_LENGTH;
    }
    let before = image::read(bytes);
    let done = call(before);
    show(done, bytes)
}

// Add, over a bench's image.
pub fn add(
    bytes: &mut [u8],
    n: usize,
    arities: &[u8],
    cells: &[u8],
    sheet: usize,
    x: usize,
    y: usize,
) -> u32
    ensures { (result, bytes.new) ≡ image_call (λ b. add_call b (algebra_in n arities.entry cells.entry) sheet x y) bytes.old }
{
    over_image(bytes, |before| {
        bench::add(before, n, arities, cells, sheet, x, y)
    })
}

// Clear, over a bench's image.
pub fn clear(bytes: &mut [u8], sheet: usize) -> u32
    ensures { (result, bytes.new) ≡ image_call (λ b. clear_call b sheet) bytes.old }
{
    over_image(bytes, |before| bench::clear(before, sheet))
}

// The name that has these bytes, where they are eight.
fn name_of(bytes: &[u8]) -> Option<[u8; NAME_BYTES]>
    ensures { MatchOption result (length bytes.now ≢ 8) (λ name. (length bytes.now ≡ 8) × (name ≡ bytes.now)) }
{
    <[u8; NAME_BYTES]>::try_from(bytes).ok()
}

// Set, over a bench's image and a name: the reason, or 255 where either has another length.
pub fn set_point(bytes: &mut [u8], sheet: usize, name: &[u8]) -> u32
    ensures { (result, bytes.new) ≡ named_call (λ b p. set_call b sheet p) bytes.old name.now }
{
    let Some(point) = name_of(name) else {
        return OTHER_LENGTH;
    };
    over_image(bytes, |before| bench::set_point(before, sheet, point))
}

// Return, over a bench's image and a name: the reason, or 255 where either has another length.
pub fn return_to(bytes: &mut [u8], sheet: usize, name: &[u8]) -> u32
    ensures { (result, bytes.new) ≡ named_call (λ b p. return_call b sheet p) bytes.old name.now }
{
    let Some(point) = name_of(name) else {
        return OTHER_LENGTH;
    };
    over_image(bytes, |before| bench::return_to(before, sheet, point))
}

// Forget, over a bench's image and a name: the reason, or 255 where either has another length.
pub fn forget(bytes: &mut [u8], sheet: usize, name: &[u8]) -> u32
    ensures { (result, bytes.new) ≡ named_call (λ b p. forget_call b sheet p) bytes.old name.now }
{
    let Some(point) = name_of(name) else {
        return OTHER_LENGTH;
    };
    over_image(bytes, |before| bench::forget(before, sheet, point))
}
