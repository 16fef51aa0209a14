// The maps that are needed, each written straight into its own stretch of a lent list.
ghost use Rattle.std.specs.Prelude.{◌≡◌, ◌*◌, ◌≤◌, length};
ghost use Rattle.equivalence.specs.Lists.{concat};
ghost use Rattle.equivalence.specs.Lent.{written};
ghost use Rattle.pruning.specs.InnerPruning.{chosen, ChosenMaps};

// Writes the maps whose numbers stand first in `needed`, so many as are kept: factor i from byte i × n on.
pub fn write_needed(n: usize, maps: &[u8], kept: usize, needed: &[u8], out: &mut [u8])
    requires chosen_maps { ChosenMaps n maps.now kept needed.now }
    requires n_in_bounds { kept * n ≤ length out.old }
    ensures { out.new ≡ written (concat (chosen n maps.now kept needed.now)) out.old }
{
    for i in 0..kept {
        let from = needed[i] as usize * n;
        let at = i * n;
        out[at..at + n].copy_from_slice(&maps[from..from + n]);
    }
}
