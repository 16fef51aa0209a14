// The blocks of a map, changed in place. A map is lent with room for n bytes; bytes past n keep their value.
ghost use Rattle.std.specs.Prelude.{◌≡◌, ◌<◌, ◌≤◌, min, length};
ghost use Rattle.equivalence.specs.Equivalence.{byte};
ghost use Rattle.kernel.specs.InnerKernel.{Canonical, Filled, Merged, United, relabel};
ghost use Rattle.kernel.specs.InnerLargest.{Larger};

// v, or `new` where v is `old`.
#[tactic(auto, unfolding(kernel::specs::InnerKernel::relabel))]
fn relabelled(v: u8, old: u8, new: u8) -> u8
    ensures { result ≡ relabel old new v }
{
    if v == old { new } else { v }
}

// Every byte `old` of the first n becomes `new`.
pub fn relabel_all(n: usize, old: u8, new: u8, m: &mut [u8])
    requires { n ≤ length m.old }
    ensures { Filled n (λ x. relabel old new (byte m.old x)) (byte m.old) (byte m.new) }
{
    for v in &mut m[..n] {
        *v = relabelled(*v, old, new);
    }
}

// The smaller of two bytes.
pub fn smaller(p: u8, q: u8) -> u8
    ensures { result ≡ min p q }
{
    p.min(q)
}

// The larger of two bytes.
pub fn larger(p: u8, q: u8) -> u8
    ensures { Larger p q result }
{
    p.max(q)
}

// Puts the blocks of a and b, which are two, under the smaller name. Which name that is cannot be foreseen, so it is chosen without a branch.
pub fn merge(n: usize, a: usize, b: usize, m: &mut [u8])
    requires n_in_bounds { n ≤ length m.old }
    requires a_lt_n { a < n }
    requires b_lt_n { b < n }
    requires canonical { Canonical n (byte m.old) }
    requires fact { byte m.old a ≡ byte m.old b → ⊥ }
    ensures { Merged n a b (byte m.old) (byte m.new) }
{
    let p = m[a];
    let q = m[b];
    let old = larger(p, q);
    let new = smaller(p, q);
    relabel_all(n, old, new, m);
}

// Puts x and y into one block, if they are not.
pub fn unite(n: usize, x: usize, y: usize, m: &mut [u8])
    requires n_in_bounds { n ≤ length m.old }
    requires x_lt_n { x < n }
    requires y_lt_n { y < n }
    requires canonical { Canonical n (byte m.old) }
    ensures { United n x y (byte m.old) (byte m.new) }
{
    if m[x] == m[y] {
        return;
    }
    merge(n, x, y, m);
}

// The first n bytes of m become the identity.
pub fn identity(n: usize, m: &mut [u8])
    requires n_in_bounds { n ≤ length m.old }
    requires n_bound { n ≤ 64 }
    ensures { Filled n (λ x. x) (byte m.old) (byte m.new) }
{
    for (x, name) in m[..n].iter_mut().enumerate() {
        *name = x as u8;
    }
}

// The first n bytes of `from` go to `to`.
pub fn copy(n: usize, from: &[u8], to: &mut [u8])
    requires n_in_bounds { n ≤ length from.now }
    requires n_in_bounds_2 { n ≤ length to.old }
    ensures { Filled n (byte from.now) (byte to.old) (byte to.new) }
{
    // Place by place: `copy_from_slice` makes a C program supply `memmove`.
    for (x, place) in to[..n].iter_mut().enumerate() {
        *place = from[x];
    }
}
