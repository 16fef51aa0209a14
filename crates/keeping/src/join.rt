// A kept map joined with another.
ghost use Rattle.std.specs.Prelude.{◌≡◌, ◌<◌, ◌≤◌, length};
ghost use Rattle.equivalence.specs.Equivalence.{byte};
ghost use Rattle.kernel.specs.InnerKernel.{Canonical};
ghost use Rattle.sweep.specs.InnerQueue.{state_of, Ready, Grown};
ghost use Rattle.keeping.specs.InnerPrincipal.{JoinedTo};

use sweep::queue::Merging;

// Joins z with its name.
fn join_name(merging: &mut Merging, n: usize, z: usize, name: u8)
    requires ready { Ready n (state_of merging.old) }
    requires z_lt_n { z < n }
    requires name_lt_n { name < n }
    ensures grown { Grown n (λ g. g z ≡ g name) (state_of merging.old) (state_of merging.new) }
    ensures z_after { byte merging.new.map z ≡ byte merging.new.map name }
{
    if name as usize == z {
        return;
    }
    merging.merge(n, z as u8, name);
}

// Joins each element with its name in `kept`.
pub fn join_kept(merging: &mut Merging, n: usize, kept: &[u8])
    requires ready { Ready n (state_of merging.old) }
    requires n_in_bounds { n ≤ length kept.now }
    requires canonical { Canonical n (byte kept.now) }
    ensures { JoinedTo n n (byte kept.now) (state_of merging.old) (state_of merging.new) }
{
    for z in 0..n {
        join_name(merging, n, z, kept[z]);
    }
}
