// Merging with a queue.
ghost use Rattle.std.specs.Prelude.{◌≡◌, ◌<◌};
ghost use Rattle.equivalence.specs.Equivalence.{byte};
ghost use Rattle.sweep.specs.InnerQueue.{state_of, Ready, Grown};

// A map that grows by merges, and the queue of the names that they took away, of which there are `len`. The map's bytes past n name themselves.
#[derive(Clone, Copy)]
pub struct Merging {
    pub map: [u8; 64],
    pub queue: [u8; 64],
    pub len: usize,
}

impl Merging {
    // Joins a and b. Where the map held them apart, the larger of their names goes behind the queue. No name that is taken away is past n, so that all 64 bytes can be
    // relabelled, and a loop of fixed length is a few vector steps.
    pub fn merge(&mut self, n: usize, a: u8, b: u8)
        requires ready { Ready n (state_of self.old) }
        requires a_lt_n { a < n }
        requires b_lt_n { b < n }
        ensures grown { Grown n (λ g. g a ≡ g b) (state_of self.old) (state_of self.new) }
        ensures a_after { byte self.new.map a ≡ byte self.new.map b }
    {
        let p = self.map[a as usize];
        let q = self.map[b as usize];
        if p == q {
            return;
        }
        let old = equivalence::blocks::larger(p, q);
        let new = equivalence::blocks::smaller(p, q);
        equivalence::blocks::relabel_all(64, old, new, &mut self.map);
        self.queue[self.len] = old;
        self.len += 1;
    }
}
