// Demand 3's claim as one function: Decompose; for every factor, Quotient of the same algebra by the factor's map as listed; and Decompose on the
// tables and b that this Quotient gave, with the arities as before and nothing lent. Every last call answers 11.
#![tactic(auto)]

ghost use Rattle.std.specs.Prelude.{[], ◌≡◌, ◌*◌, ◌≤◌, length};
ghost use Rattle.algebra.specs.Algebra.{algebra_in};
ghost use Rattle.congruence.specs.Calls.{algebra_from, decompose_call};
ghost use Rattle.claim.specs.Calls.{factor_count, irreducible_count, factor_calls, tables_at, irreducible_among, CallsMade, Claim};
ghost use Rattle.claim.specs.InnerPromises.{TablesFit};

use congruence::Decomposed;
use equivalence::Refusal;

// What the calls came to: the answer of the first, and how many of the last ones answered 11.
#[derive(Clone, Copy)]
pub struct FactorsDecomposed {
    pub first: Result<Decomposed, Refusal>,
    pub irreducible: usize,
}

// How many factors an answer counts.
#[tactic(auto, unfolding(crate::specs::Calls::factor_count))]
fn factor_count(answer: Result<Decomposed, Refusal>) -> usize
    ensures { result ≡ factor_count answer }
{
    match answer {
        Ok(Decomposed::Factors(count)) => usize::from(count),
        Ok(Decomposed::Irreducible(_, _)) => 0,
        Err(_) => 0,
    }
}

// 1 for the answer 11, 0 for every other.
#[tactic(auto, unfolding(crate::specs::Calls::irreducible_count))]
fn irreducible_count(answer: Result<Decomposed, Refusal>) -> usize
    ensures { result ≡ irreducible_count answer }
{
    match answer {
        Ok(Decomposed::Factors(_)) => 0,
        Ok(Decomposed::Irreducible(_, _)) => 1,
        Err(_) => 0,
    }
}

// Decompose, lent nothing, on the tables at the start of a slice.
fn decompose_front(b: usize, arities: &[u8], tables: &[u8]) -> Result<Decomposed, Refusal>
    requires { TablesFit b arities.now tables.now }
    ensures { result ≡ (decompose_call (algebra_from b arities.now tables.now) []).0 }
{
    let count = algebra::cell_count(b, arities);
    let mut nothing = [0u8; 0];
    congruence::decompose(b, arities, &tables[..count], &mut nothing)
}

// The calls for one factor: Quotient by its map, and Decompose on what this gave. The answer of the last call; a refusal of Quotient is passed on.
fn factor_calls(
    n: usize,
    arities: &[u8],
    cells: &[u8],
    map: &[u8],
    tables: &mut [u8],
) -> Result<Decomposed, Refusal>
    ensures { (result, tables.new) ≡ factor_calls (algebra_in n arities.entry cells.entry) map.now tables.old }
{
    let b = congruence::quotient(n, arities, cells, map, tables)?;
    decompose_front(usize::from(b), arities, tables)
}

// The calls for the first `count` factors of the list. How many of the last ones answered 11.
fn irreducible_among(
    n: usize,
    arities: &[u8],
    cells: &[u8],
    count: usize,
    list: &[u8],
    tables: &mut [u8],
) -> usize
    requires { count * n ≤ length list.now }
    ensures value { result ≡ irreducible_among (algebra_in n arities.entry cells.entry) list.now tables.old count }
    ensures tables_after { tables.new ≡ tables_at (algebra_in n arities.entry cells.entry) list.now tables.old count }
{
    let mut irreducible = 0;
    for i in 0..count {
        let at = i * n;
        let last = factor_calls(n, arities, cells, &list[at..at + n], tables);
        irreducible += irreducible_count(last);
    }
    irreducible
}

// Decompose into `list`; for every factor, Quotient by its n bytes of `list` into `tables`; and Decompose on what this gave, lent nothing. Of an accepted
// algebra, with the first two lent at least what they want, as many last calls answer 11 as there are factors.
pub fn decompose_factors(
    n: usize,
    arities: &[u8],
    cells: &[u8],
    list: &mut [u8],
    tables: &mut [u8],
) -> FactorsDecomposed
    ensures calls_made { CallsMade (algebra_in n arities.entry cells.entry) list tables result }
    ensures claim { Claim (algebra_in n arities.entry cells.entry) list tables result }
{
    let first = congruence::decompose(n, arities, cells, list);
    let count = factor_count(first);
    let irreducible = irreducible_among(n, arities, cells, count, list, tables);
    FactorsDecomposed { first, irreducible }
}
