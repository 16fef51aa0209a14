// Joins of maps, written into lent slices. The maps are the first n bytes of what is handed in.
ghost use Rattle.std.specs.Prelude.{◌≡◌, ◌≤◌, length};
ghost use Rattle.equivalence.specs.Equivalence.{byte, join};
ghost use Rattle.kernel.specs.InnerKernel.{Canonical, Joined};
ghost use Rattle.equivalence.specs.Lent.{written};

use equivalence::blocks;

// Puts each element and its smallest member in b into one block.
fn unite_all(n: usize, b: &[u8], m: &mut [u8])
    requires n_in_bounds { n ≤ length m.old }
    requires n_in_bounds_2 { n ≤ length b.now }
    requires canonical { Canonical n (byte m.old) }
    requires canonical_2 { Canonical n (byte b.now) }
    ensures { Joined n n (byte b.now) (byte m.old) (byte m.new) }
{
    for (x, first) in b[..n].iter().enumerate() {
        blocks::unite(n, x, *first as usize, m);
    }
}

// The join of a and b goes to the first n bytes of out.
pub fn join_into(n: usize, a: &[u8], b: &[u8], out: &mut [u8])
    requires n_in_bounds { n ≤ length a.now }
    requires n_in_bounds_2 { n ≤ length b.now }
    requires n_in_bounds_3 { n ≤ length out.old }
    requires canonical { Canonical n (byte a.now) }
    requires canonical_2 { Canonical n (byte b.now) }
    ensures { out.new ≡ written (join n a.now b.now) out.old }
{
    blocks::copy(n, a, out);
    unite_all(n, b, out);
}
