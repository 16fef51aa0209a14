// Meets and joins of maps: Meet and Join with their tests; what writes them, for other crates too, is in `meets` and `joins`.
#![tactic(auto)]

ghost use Rattle.std.specs.Prelude.{◌≡◌};
ghost use Rattle.equivalence.specs.Refusal.{lowest};
ghost use Rattle.lattice.specs.Calls.{two_maps_tests, meet_call, join_call};

use equivalence::{Refusal, checks};

pub mod joins;
pub mod meets;

// The tests of a call that is handed two maps and writes one into `room` bytes.
pub fn maps_space_check(n: usize, a: &[u8], b: &[u8], room: usize) -> Result<(), Refusal>
    ensures { result ≡ lowest (two_maps_tests n a.now b.now room) }
{
    checks::maps_check(n, a, b)?;
    if room < n {
        return Err(Refusal::Space);
    }
    Ok(())
}

// The equivalence that holds just the pairs held by both goes to the first n bytes of out. Reasons to decline: 1, 8, 9.
pub fn meet(n: usize, a: &[u8], b: &[u8], out: &mut [u8]) -> Result<(), Refusal>
    ensures { (result, out.new) ≡ meet_call n a.now b.now out.old }
{
    maps_space_check(n, a, b, out.len())?;
    meets::meet_into(n, a, b, out);
    Ok(())
}

// The least equivalence that holds what a holds and what b holds goes to the first n bytes of out. Reasons to decline: 1, 8, 9.
pub fn join(n: usize, a: &[u8], b: &[u8], out: &mut [u8]) -> Result<(), Refusal>
    ensures { (result, out.new) ≡ join_call n a.now b.now out.old }
{
    maps_space_check(n, a, b, out.len())?;
    joins::join_into(n, a, b, out);
    Ok(())
}
