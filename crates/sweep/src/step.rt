// One merge of a pass. A pass ends early where a single block is left, or where v and w, if they are two, have been joined. Where a merge
// would join a refused pair, v and w are joined instead: the work is over.
ghost use Rattle.std.specs.Prelude.{◌≡◌, ◌⊎◌, ◌+◌, ◌*◌, ◌<◌, length};
ghost use Rattle.equivalence.specs.Equivalence.{byte};
ghost use Rattle.sweep.specs.InnerSweeps.{chosen_of, Yes, Halts, NamesRefused, SweepingIn, SweptIn};

use crate::Pass;
use crate::queue::Merging;

// Where the table of refused pairs has p and q: in the row of the smaller.
fn mark_place(p: u8, q: u8) -> usize
    ensures { (result ≡ p * 64 + q) ⊎ (result ≡ q * 64 + p) }
{
    if p < q {
        return p as usize * 64 + q as usize;
    }
    q as usize * 64 + p as usize
}

// `other` where a test says yes, else `own`.
fn chosen(test: bool, other: u8, own: u8) -> u8
    ensures { result ≡ chosen_of test other own }
{
    if test { other } else { own }
}

impl<'a> Pass<'a> {
    // Is nothing more to be done?
    pub fn halted(&self, merging: &Merging) -> bool
        requires v_in_bounds { self.now.stop.v < 64 }
        requires w_in_bounds { self.now.stop.w < 64 }
        ensures { Yes result (Halts self.now.stop merging.now.len (byte merging.now.map)) }
    {
        let v = self.stop.v;
        let w = self.stop.w;
        if self.stop.limit <= merging.len {
            return true;
        }
        v != w && merging.map[v] == merging.map[w]
    }

    // Are v and w two, and are the names of a and b refused? Then whatever joins a and b joins v and w.
    fn is_refused(&self, map: &[u8; 64], a: u8, b: u8) -> bool
        requires a_bound { a < 64 }
        requires b_bound { b < 64 }
        ensures { Yes result (NamesRefused self.now.refused.now self.now.stop.v self.now.stop.w a b (byte map.now)) }
    {
        if self.stop.v == self.stop.w {
            return false;
        }
        let place = mark_place(map[a as usize], map[b as usize]);
        if self.refused.len() <= place {
            return false;
        }
        self.refused[place] != 0
    }

    // Joins a and b, or where the pair is refused, v and w alone. There is one merge, of a pair that is chosen without a branch: the code stays small enough to stand
    // within the loops over lines.
    pub fn step(&self, merging: &mut Merging, a: u8, b: u8)
        requires sweeping { SweepingIn self.now merging.old }
        requires a_lt_n { a < self.now.n }
        requires b_lt_n { b < self.now.n }
        ensures { SweptIn self.now (λ g. g a ≡ g b) merging.old merging.new }
    {
        let over = self.is_refused(&merging.map, a, b);
        let p = chosen(over, self.stop.v as u8, a);
        let q = chosen(over, self.stop.w as u8, b);
        merging.merge(self.n, p, q);
    }
}
