// The services over an algebra: the congruences they give, the answers and the lent bytes.
#![tactic(auto)]

ghost use Rattle.std.specs.Prelude.{◌≡◌};
ghost use Rattle.algebra.specs.Algebra.{algebra_in};
ghost use Rattle.congruence.specs.Calls.{decompose_call, generate_call, contained_call, separate_call, quotient_call, certify_call};

use equivalence::Refusal;

mod checks;

pub use decomposition::Decomposed;

// The least congruence that holds the pairs goes to the first n bytes of out; the answer is how many merges made it, n minus its blocks. `pairs` is a
// flat list; equal and repeated pairs are allowed, each pair in either order, and no pairs give the identity. Reasons to decline: 1 to 7 and 9; then
// nothing is written.
pub fn generate(
    n: usize,
    arities: &[u8],
    cells: &[u8],
    pairs: &[u8],
    out: &mut [u8],
) -> Result<u8, Refusal>
    ensures { (result, out.new) ≡ generate_call (algebra_in n arities.entry cells.entry) pairs.now out.old }
{
    checks::generate_check(n, arities, cells, pairs, out.len())?;
    Ok(extremal::generated_into(n, arities, cells, pairs, out))
}

// The greatest congruence inside the map goes to the first n bytes of out. The map that joins everything is allowed, and a congruence gives itself.
// Reasons to decline: 1 to 6, 8 and 9; then nothing is written.
pub fn contained(
    n: usize,
    arities: &[u8],
    cells: &[u8],
    map: &[u8],
    out: &mut [u8],
) -> Result<(), Refusal>
    ensures { (result, out.new) ≡ contained_call (algebra_in n arities.entry cells.entry) map.now out.old }
{
    checks::contained_check(n, arities, cells, map, out.len())?;
    extremal::contained_into(n, arities, cells, map, out);
    Ok(())
}

// The earliest congruence that holds v and w apart goes to the first n bytes of out; v and w may come in either order. Of two congruences the earlier
// is the one that holds the first pair lying in just one of them. Reasons to decline: 1 to 7, 9 and 10, and for n = 1 there always is one; then nothing
// is written.
pub fn separate(
    n: usize,
    arities: &[u8],
    cells: &[u8],
    v: usize,
    w: usize,
    out: &mut [u8],
) -> Result<(), Refusal>
    ensures { (result, out.new) ≡ separate_call (algebra_in n arities.entry cells.entry) v w out.old }
{
    checks::separate_check(n, arities, cells, v, w, out.len())?;
    extremal::separated_into(n, arities, cells, v, w, out);
    Ok(())
}

// The tables of the quotient by a congruence go to the start of out, the sum of b^s bytes for its b blocks and the arities s; the answer is b. Blocks
// are numbered from 0 by smallest member. Reasons to decline: 1 to 6, 8, 9 and 12, where 9 goes by the number of blocks of the given map, whether it is
// a congruence or not; then nothing is written.
pub fn quotient(
    n: usize,
    arities: &[u8],
    cells: &[u8],
    map: &[u8],
    out: &mut [u8],
) -> Result<u8, Refusal>
    ensures { (result, out.new) ≡ quotient_call (algebra_in n arities.entry cells.entry) map.now out.old }
{
    checks::quotient_check(n, arities, cells, map, out.len())?;
    Ok(quotient::divide(n, arities, cells, map, out))
}

// The subdirect factors: congruences that meet in the identity, none of which can be left out, each maximal for some pair. Factor i goes to the n bytes
// from i × n on, and the answer is how many there are; bytes behind the last factor keep their value. An irreducible algebra (11) is answered with the
// first pair common to all congruences but the identity, 0 and 0 for n = 1, whatever is lent. Reasons to decline besides: 1 to 6, and 9 where the
// algebra is reducible and fewer bytes are lent than its factors take; the count is not told then, and (n − 1) × n bytes are always enough. Nothing is
// written but the factors.
pub fn decompose(
    n: usize,
    arities: &[u8],
    cells: &[u8],
    out: &mut [u8],
) -> Result<Decomposed, Refusal>
    ensures { (result, out.new) ≡ decompose_call (algebra_in n arities.entry cells.entry) out.old }
{
    algebra::check(n, arities, cells)?;
    decomposition::factors(n, arities, cells, out)
}

// Whether a list of maps, n bytes each, consists of congruences that meet in the identity, none of which can be left out, each maximal for some pair.
// The empty list meets in the map with one block. Reasons to decline: 1 to 6, and 8 for a length that is no multiple of n, for more than 63 maps and
// for a member that is no map.
pub fn certify(n: usize, arities: &[u8], cells: &[u8], maps: &[u8]) -> Result<bool, Refusal>
    ensures { result ≡ certify_call (algebra_in n arities.entry cells.entry) maps.now }
{
    checks::certify_check(n, arities, cells, maps)?;
    let count = maps.len() / n;
    Ok(certification::is_certified(n, arities, cells, count, maps))
}
