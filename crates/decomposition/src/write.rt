// The factors, written where the lent list has room for all of them.
ghost use Rattle.std.specs.Prelude.{◌≡◌, ◌≤◌};
ghost use Rattle.pruning.specs.InnerPruning.{chosen, ChosenMaps};
ghost use Rattle.decomposition.specs.InnerFactored.{listed_in};

use crate::Decomposed;
use equivalence::Refusal;
use pruning::write::write_needed;

// Writes the maps whose numbers stand first in `needed`, so many as are kept, where the list has room for all of them, and else nothing.
pub fn write_if_room(
    n: usize,
    maps: &[u8],
    kept: usize,
    needed: &[u8],
    out: &mut [u8],
) -> Result<Decomposed, Refusal>
    requires chosen_maps { ChosenMaps n maps.now kept needed.now }
    requires kept_bound { kept ≤ 63 }
    ensures { (result, out.new) ≡ listed_in n (chosen n maps.now kept needed.now) out.old }
{
    if out.len() < kept * n {
        return Err(Refusal::Space);
    }
    write_needed(n, maps, kept, needed, out);
    Ok(Decomposed::Factors(kept as u8))
}
