// The equivalence with two blocks with which the search ends: v's block and the rest.
ghost use Rattle.std.specs.Prelude.{◌≡◌, ◌<◌, ◌≤◌, length};
ghost use Rattle.equivalence.specs.Equivalence.{byte};
ghost use Rattle.kernel.specs.InnerKernel.{Canonical, Filled, KeptPast};
ghost use Rattle.bounding.specs.InnerBlocks.{FirstOther, one_of, TwoBlocks};

// The first element whose byte is not r, or n.
fn first_other(m: &[u8], n: usize, r: u8) -> usize
    requires { n ≤ length m.now }
    ensures { FirstOther n r (byte m.now) result }
{
    m[..n].iter().position(|b| *b != r).unwrap_or(n)
}

// r where b is r, and q where it is not.
fn one_of(b: u8, r: u8, q: u8) -> u8
    ensures { result ≡ one_of r q b }
{
    if b == r { r } else { q }
}

// Each of the first n bytes becomes r where m has r, and q where it has not.
fn name_two_blocks(m: &[u8], n: usize, r: u8, q: u8, out: &mut [u8])
    requires n_in_bounds { n ≤ length m.now }
    requires n_in_bounds_2 { n ≤ length out.old }
    ensures { Filled n (λ x. one_of r q (byte m.now x)) (byte out.old) (byte out.new) }
{
    for x in 0..n {
        out[x] = one_of(m[x], r, q);
    }
}

// The map of the equivalence with the blocks [v] and the rest goes to the first n bytes of out.
pub fn two_blocks(m: &[u8], n: usize, v: usize, out: &mut [u8])
    requires n_in_bounds { n ≤ length m.now }
    requires n_in_bounds_2 { n ≤ length out.old }
    requires v_lt_n { v < n }
    requires n_bound { n ≤ 64 }
    requires canonical { Canonical n (byte m.now) }
    ensures two_blocks { TwoBlocks n v (byte m.now) (byte out.new) }
    ensures canonical_2 { Canonical n (byte out.new) }
    ensures kept_past { KeptPast n (byte out.old) (byte out.new) }
{
    let r = m[v];
    let q = first_other(m, n, r);
    name_two_blocks(m, n, r, q as u8, out);
}
