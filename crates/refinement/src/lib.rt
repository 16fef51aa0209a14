// The greatest congruence inside a map: a map is split along translations.
#![tactic(auto)]

ghost use Rattle.std.specs.Prelude.{◌≤◌, length};
ghost use Rattle.equivalence.specs.Equivalence.{byte};
ghost use Rattle.kernel.specs.InnerKernel.{Canonical, KeptPast};
ghost use Rattle.algebra.specs.Accepted.{Accepted};
ghost use Rattle.algebra.specs.Algebra.{algebra_in};
ghost use Rattle.translation.specs.InnerTranslations.{Refined};
ghost use Rattle.refinement.specs.InnerSplitting.{Walk, MapRefined, Represented};

pub mod line;
mod plane;
mod table;

use line::Round;

// Passes over all lines follow each other until one splits nothing, or every block has one element. None splits a single block. The list is
// turned round after each: a split that follows from a later one comes in the next. A single line is gone along block by block from the first round on.
fn refine_by(m: &mut [u8], n: usize, arities: &[u8], cells: &[u8], live: &[u8], others: &mut [u8])
    requires accepted { Accepted (algebra_in n arities cells) }
    requires walk { Walk n live.now (length live.now) cells.now m.old others.old (length others.old) }
    requires represented { Represented (algebra_in n arities cells) live.now (length live.now) (byte m.old) }
    ensures { MapRefined (algebra_in n arities.entry cells.entry) m.old m.new }
{
    let mut again = cells.len() == n;
    let mut left = others.len();
    let mut count = equivalence::map::block_count(n, m);
    if count == 1 {
        return;
    }
    // A `while`: what a round splits decides whether another follows.
    while 0 < left {
        let round = Round {
            n,
            cells,
            live,
            again,
        };
        left = table::split_all(m, &round, arities, &mut others[..left]);
        let found = equivalence::map::block_count(n, m);
        if found == count {
            return;
        }
        count = found;
        again = true;
        others[..left].reverse();
    }
}

// The first n bytes of m become the greatest congruence inside the map that they write; those past n keep their value. Only listed
// elements are looked at: where a congruence inside the map is known, its smallest members stand for all.
pub fn refine_above(m: &mut [u8], n: usize, arities: &[u8], cells: &[u8], live: &[u8], used: usize)
    requires accepted { Accepted (algebra_in n arities cells) }
    requires n_in_bounds { n ≤ length m.old }
    requires canonical { Canonical n (byte m.old) }
    requires represented { Represented (algebra_in n arities cells) live.now used (byte m.old) }
    requires used_bound { used ≤ 64 }
    ensures refined { Refined (algebra_in n arities.entry cells.entry) (byte m.old) (byte m.new) }
    ensures kept_past { KeptPast n (byte m.old) (byte m.new) }
{
    if arities.is_empty() {
        return;
    }
    let live = &live[..used];
    let mut others = [0u8; 64];
    let others = &mut others[..used];
    others.copy_from_slice(live);
    let left = line::sift(m, others);
    refine_by(m, n, arities, cells, live, &mut others[..left]);
}

// The first n bytes of m become the greatest congruence inside the map that they write; those past n keep their value.
pub fn refine(m: &mut [u8], n: usize, arities: &[u8], cells: &[u8])
    requires accepted { Accepted (algebra_in n arities cells) }
    requires n_in_bounds { n ≤ length m.old }
    requires canonical { Canonical n (byte m.old) }
    ensures refined { Refined (algebra_in n arities.entry cells.entry) (byte m.old) (byte m.new) }
    ensures kept_past { KeptPast n (byte m.old) (byte m.new) }
{
    let mut live = [0u8; 64];
    equivalence::blocks::identity(n, &mut live);
    refine_above(m, n, arities, cells, &live, n);
}
