// The tests of a call, by rising number: the first that applies is the answer.
ghost use Rattle.std.specs.Prelude.{◌≡◌, not, ltb};
ghost use Rattle.equivalence.specs.Lists.{every};
ghost use Rattle.equivalence.specs.Refusal.{number_of, size_test, prefer_check};

use crate::{Refusal, map};

// The largest number of elements.
pub const MAX_SIZE: usize = 64;

// Whether n is a number of elements: 1 to 64.
#[tactic(auto, unfolding(crate::specs::Refusal::size_test))]
pub fn is_size(n: usize) -> bool
    ensures { result ≡ not (size_test n).applies }
{
    (1..=MAX_SIZE).contains(&n)
}

// Whether every byte is below n.
pub fn all_below(n: usize, bytes: &[u8]) -> bool
    ensures { result ≡ every (λ c. ltb c n) bytes.now }
{
    bytes.iter().all(|c| (*c as usize) < n)
}

// The tests of a call that is handed two maps.
#[tactic(auto, unfolding(crate::specs::Refusal::prefer_check, crate::specs::Refusal::lowest, crate::specs::Refusal::size_test, crate::specs::Refusal::map_test))]
pub fn maps_check(n: usize, a: &[u8], b: &[u8]) -> Result<(), Refusal>
    ensures { result ≡ prefer_check n a.now b.now }
{
    if !is_size(n) {
        return Err(Refusal::Size);
    }
    if !map::is_map(n, a) || !map::is_map(n, b) {
        return Err(Refusal::NotMap);
    }
    Ok(())
}

// The reason's number.
impl From<Refusal> for u8 {
    ghost from_gives = { λ reason number. number ≡ number_of reason };

    #[tactic(auto, unfolding(crate::specs::Refusal::number_of))]
    fn from(reason: Refusal) -> u8 {
        match reason {
            Refusal::Size => 1,
            Refusal::Operations => 2,
            Refusal::Arity => 3,
            Refusal::Cells => 4,
            Refusal::Length => 5,
            Refusal::Cell => 6,
            Refusal::Range => 7,
            Refusal::NotMap => 8,
            Refusal::Space => 9,
            Refusal::Equal => 10,
            Refusal::NotCongruence => 12,
            Refusal::Tally => 13,
            Refusal::Text => 14,
            Refusal::UnknownName => 15,
            Refusal::PointsFull => 16,
        }
    }
}
