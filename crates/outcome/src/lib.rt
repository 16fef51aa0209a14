// The number of each case of an answer: reason + 256 × count + 65,536 × first element + 16,777,216 × second element.
#![tactic(auto)]

ghost use Rattle.std.specs.Prelude.{◌≡◌};
ghost use Rattle.pairorder.specs.Order.{place_of};
ghost use Rattle.equivalence.specs.Outcome.{packed, success, refusal, written_outcome};
ghost use Rattle.congruence.specs.Outcome.{generated_outcome, divided_outcome, decomposed_outcome, certified_outcome};
ghost use Rattle.outcome.specs.Places.{place_number};

use congruence::Decomposed;
use equivalence::Refusal;

// The number of a refusal.
#[tactic(auto, unfolding(equivalence::specs::Outcome::packed, equivalence::specs::Outcome::refusal))]
pub fn refused(reason: Refusal) -> u32
    ensures { result ≡ packed (refusal reason) }
{
    u32::from(u8::from(reason))
}

// The number of a success with a count.
#[tactic(auto, unfolding(equivalence::specs::Outcome::packed, equivalence::specs::Outcome::success))]
pub fn succeeded(count: u8) -> u32
    ensures { result ≡ packed (success count) }
{
    256 * u32::from(count)
}

// The number of Generate's answer.
#[tactic(auto, unfolding(congruence::specs::Outcome::generated_outcome))]
pub fn generated_number(answer: Result<u8, Refusal>) -> u32
    ensures { result ≡ packed (generated_outcome answer) }
{
    match answer {
        Ok(count) => succeeded(count),
        Err(reason) => refused(reason),
    }
}

// The number of an answer that only writes a map.
#[tactic(auto, unfolding(equivalence::specs::Outcome::written_outcome))]
pub fn written_number(answer: Result<(), Refusal>) -> u32
    ensures { result ≡ packed (written_outcome answer) }
{
    match answer {
        Ok(()) => succeeded(0),
        Err(reason) => refused(reason),
    }
}

// The number of Decompose's answer.
#[tactic(auto, unfolding(equivalence::specs::Outcome::packed, congruence::specs::Outcome::decomposed_outcome))]
pub fn decomposed_number(answer: Result<Decomposed, Refusal>) -> u32
    ensures { result ≡ packed (decomposed_outcome answer) }
{
    match answer {
        Ok(Decomposed::Factors(count)) => succeeded(count),
        Ok(Decomposed::Irreducible(x, y)) => {
            11 + 65536 * u32::from(x.0) + 16777216 * u32::from(y.0)
        }
        Err(reason) => refused(reason),
    }
}

// The number of Quotient's answer. The body of `generated_number`, which keeps a clause of its own: each names its service's outcome.
#[tactic(auto, unfolding(congruence::specs::Outcome::divided_outcome))]
pub fn divided_number(answer: Result<u8, Refusal>) -> u32
    ensures { result ≡ packed (divided_outcome answer) }
{
    match answer {
        Ok(count) => succeeded(count),
        Err(reason) => refused(reason),
    }
}

// The number of Certify's answer.
#[tactic(auto, unfolding(congruence::specs::Outcome::certified_outcome))]
pub fn certified_number(answer: Result<bool, Refusal>) -> u32
    ensures { result ≡ packed (certified_outcome answer) }
{
    match answer {
        Ok(yes) => succeeded(u8::from(yes)),
        Err(reason) => refused(reason),
    }
}

// The place of a pair, or 65,535.
#[tactic(auto, unfolding(crate::specs::Places::place_number))]
pub fn place_number(x: u8, y: u8) -> u32
    ensures { result ≡ place_number (place_of x y) }
{
    let place = pairorder::pair_place(x, y);
    match place {
        Some(at) => at as u32,
        None => 65535,
    }
}
