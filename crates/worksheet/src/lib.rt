// Four services for a caller in C, over numbers and byte slices. Each call answers one 32-bit number:
// reason + 256 × count + 65,536 × first element + 16,777,216 × second element, with 0 for what an answer lacks.
#![tactic(auto)]

ghost use Rattle.std.specs.Prelude.{◌≡◌};
ghost use Rattle.algebra.specs.Algebra.{algebra_in};
ghost use Rattle.congruence.specs.Calls.{generate_call, contained_call, separate_call, decompose_call};
ghost use Rattle.equivalence.specs.Outcome.{packed, written_outcome};
ghost use Rattle.congruence.specs.Outcome.{generated_outcome, decomposed_outcome};

// The least congruence that holds the pairs: 256 × merges, and the map in the first n bytes of out.
#[unsafe(no_mangle)]
pub extern "C" fn congruence_generate(
    n: usize,
    arities: &[u8],
    cells: &[u8],
    pairs: &[u8],
    out: &mut [u8],
) -> u32
    ensures value { result ≡ packed (generated_outcome (generate_call (algebra_in n arities.entry cells.entry) pairs.now out.old).0) }
    ensures out_after { out.new ≡ (generate_call (algebra_in n arities.entry cells.entry) pairs.now out.old).1 }
{
    outcome::generated_number(congruence::generate(n, arities, cells, pairs, out))
}

// The greatest congruence inside the map: 0, and the map in the first n bytes of out.
#[unsafe(no_mangle)]
pub extern "C" fn congruence_contained(
    n: usize,
    arities: &[u8],
    cells: &[u8],
    map: &[u8],
    out: &mut [u8],
) -> u32
    ensures value { result ≡ packed (written_outcome (contained_call (algebra_in n arities.entry cells.entry) map.now out.old).0) }
    ensures out_after { out.new ≡ (contained_call (algebra_in n arities.entry cells.entry) map.now out.old).1 }
{
    outcome::written_number(congruence::contained(n, arities, cells, map, out))
}

// The earliest congruence that holds v and w apart: 0, and the map in the first n bytes of out.
#[unsafe(no_mangle)]
pub extern "C" fn congruence_separate(
    n: usize,
    arities: &[u8],
    cells: &[u8],
    v: usize,
    w: usize,
    out: &mut [u8],
) -> u32
    ensures value { result ≡ packed (written_outcome (separate_call (algebra_in n arities.entry cells.entry) v w out.old).0) }
    ensures out_after { out.new ≡ (separate_call (algebra_in n arities.entry cells.entry) v w out.old).1 }
{
    outcome::written_number(congruence::separate(n, arities, cells, v, w, out))
}

// The subdirect factors: 256 × count, and factor i from byte i × n of out; or 11 with a pair.
#[unsafe(no_mangle)]
pub extern "C" fn congruence_decompose(
    n: usize,
    arities: &[u8],
    cells: &[u8],
    out: &mut [u8],
) -> u32
    ensures value { result ≡ packed (decomposed_outcome (decompose_call (algebra_in n arities.entry cells.entry) out.old).0) }
    ensures out_after { out.new ≡ (decompose_call (algebra_in n arities.entry cells.entry) out.old).1 }
{
    outcome::decomposed_number(congruence::decompose(n, arities, cells, out))
}
