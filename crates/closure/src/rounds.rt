// The queue, element by element, until the map is a congruence.
ghost use Rattle.std.specs.Prelude.{◌≡◌};
ghost use Rattle.kernel.specs.InnerKernel.{Listed};
ghost use Rattle.equivalence.specs.Equivalence.{byte};
ghost use Rattle.algebra.specs.Algebra.{algebra_in};
ghost use Rattle.algebra.specs.Accepted.{Accepted};
ghost use Rattle.translation.specs.InnerTranslations.{Compatible};
ghost use Rattle.sweep.specs.InnerQueue.{state_of};
ghost use Rattle.sweep.specs.InnerContexts.{Contexts};
ghost use Rattle.sweep.specs.InnerSweeps.{Sweeping, Swept};
ghost use Rattle.closure.specs.InnerClosing.{InUse, NamesInUse, Begun, Retired};

use sweep::queue::Merging;
use sweep::{Pass, Stop};

// The elements in use, all different: the first `count` of `list`. `places` has where each stands.
#[derive(Clone, Copy)]
pub struct Live {
    pub list: [u8; 64],
    pub places: [u8; 64],
    pub count: usize,
}

impl Live {
    // Takes b out of the elements in use; the last takes its place.
    fn retire(&mut self, n: usize, b: u8)
        requires in_use { InUse n self.old.list self.old.places self.old.count }
        requires listed { Listed self.old.list self.old.count b }
        ensures { Retired n b self.old.list self.old.count self.new.list self.new.places self.new.count }
    {
        let i = self.places[b as usize];
        let last = self.list[self.count - 1];
        self.list[i as usize] = last;
        self.places[last as usize] = i;
        self.count -= 1;
    }
}

// Each queued element goes, with the name of its block, through all translations whose other arguments are in use, and is in use no
// more after that. Where v and w stay apart, the elements in use are the names at the end.
pub fn close(
    merging: &mut Merging,
    live: &mut Live,
    n: usize,
    arities: &[u8],
    cells: &[u8],
    refused: &[u8],
    stop: Stop,
)
    requires sweeping { Sweeping n stop (state_of merging.old) }
    requires contexts { Contexts n cells.now live.old.list live.old.count }
    requires in_use { InUse n live.old.list live.old.places live.old.count }
    requires accepted { Accepted (algebra_in n arities cells) }
    requires begun { Begun (algebra_in n arities cells) (state_of merging.old) live.old.list live.old.count }
    ensures swept { Swept n refused.now stop (Compatible (algebra_in n arities.entry cells.entry)) (state_of merging.old) (state_of merging.new) }
    ensures names_in_use { (byte merging.new.map stop.v ≡ byte merging.new.map stop.w → ⊥) → NamesInUse n (byte merging.new.map) live.new.list live.new.places live.new.count }
{
    let mut k = 0;
    // A `while`: the queue grows in it.
    while k < merging.len {
        let pass = Pass {
            n,
            cells,
            live: &live.list[..live.count],
            refused,
            stop,
        };
        if pass.halted(merging) {
            return;
        }
        let b = merging.queue[k];
        let a = merging.map[b as usize];
        pass.operations(merging, arities, a as usize, b as usize);
        live.retire(n, b);
        k += 1;
    }
}
