// An algebra's tables: whether they are accepted.
#![tactic(auto)]

ghost use Rattle.std.specs.Prelude.{◌≡◌, ℕ, ◌+◌, ◌^◌, ◌≤◌, ◌<◌, length, get_or};
ghost use Rattle.equivalence.specs.Refusal.{lowest};
ghost use Rattle.algebra.specs.Algebra.{algebra_in, cell_count};
ghost use Rattle.algebra.specs.Accepted.{algebra_tests};
ghost use Rattle.kernel.specs.InnerLargest.{Largest};

pub use equivalence::blocks::larger;
use equivalence::{Refusal, checks};

// The largest number of operations, of arguments of one, and of cells of all tables together; of elements: `equivalence::checks::MAX_SIZE`.
pub const MAX_OPERATIONS: usize = 16;

pub const MAX_ARITY: u8 = 3;

pub const MAX_CELLS: usize = 32768;

// The largest of the first 2 × half bytes, or 0. Both halves are read together, without an early exit, so that a turn of the loop takes many bytes.
fn largest_of_halves(s: &[u8], half: usize) -> u8
    requires { half + half ≤ length s.now }
    ensures { Largest (half + half) s.now result }
{
    let mut front = 0u8;
    let mut back = 0u8;
    for i in 0..half {
        front = larger(front, s[i]);
        back = larger(back, s[half + i]);
    }
    larger(front, back)
}

// The largest byte of s, or 0.
pub fn largest(s: &[u8]) -> u8
    ensures { Largest (length s.now) s.now result }
{
    let half = s.len() / 2;
    let top = largest_of_halves(s, half);
    let even = half + half;
    if even == s.len() {
        return top;
    }
    larger(top, s[even])
}

// n to the power s.
pub fn power(n: usize, s: usize) -> usize
    requires n_bound { n ≤ 64 }
    requires s_bound { s ≤ 3 }
    ensures { result ≡ n ^ s }
{
    // By cases: `pow` goes bit by bit through any exponent, which a small table notices.
    match s {
        0 => 1,
        1 => n,
        2 => n * n,
        _ => n * n * n,
    }
}

// How many cells the tables have together.
pub fn cell_count(n: usize, arities: &[u8]) -> usize
    requires n_bound { n ≤ 64 }
    requires arities_len_bound { length arities.now ≤ 16 }
    requires by_index { (i : ℕ) → i < length arities.now → get_or arities.now i 0 ≤ 3 }
    ensures { result ≡ cell_count n arities.now }
{
    let mut sum = 0;
    for s in arities {
        sum += power(n, *s as usize);
    }
    sum
}

// The first of reasons 1 to 6 that applies.
pub fn check(n: usize, arities: &[u8], cells: &[u8]) -> Result<(), Refusal>
    ensures { result ≡ lowest (algebra_tests (algebra_in n arities.entry cells.entry)) }
{
    if !checks::is_size(n) {
        return Err(Refusal::Size);
    }
    if arities.len() > MAX_OPERATIONS {
        return Err(Refusal::Operations);
    }
    if largest(arities) > MAX_ARITY {
        return Err(Refusal::Arity);
    }
    let count = cell_count(n, arities);
    if count > MAX_CELLS {
        return Err(Refusal::Cells);
    }
    if cells.len() != count {
        return Err(Refusal::Length);
    }
    if largest(cells) as usize >= n {
        return Err(Refusal::Cell);
    }
    Ok(())
}
