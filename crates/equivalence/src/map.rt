// Tests of maps. Where only the first n bytes of a slice are a map, they are said to be canonical: a stretch of a longer slice will do.
ghost use Rattle.std.specs.Prelude.{◌≡◌, ◌&&◌, ◌<◌, ◌≤◌, eqb, leb, length};
ghost use Rattle.equivalence.specs.Equivalence.{byte, is_map, inside, is_identity};
ghost use Rattle.kernel.specs.InnerKernel.{Canonical, bit, names};

// Whether the byte of x is at most x and names an element whose byte is itself.
fn is_named(m: &[u8], x: usize) -> bool
    requires { x < length m.now }
    ensures { result ≡ (leb (byte m.now x) x && eqb (byte m.now (byte m.now x)) (byte m.now x)) }
{
    let name = m[x];
    let first = name as usize;
    first <= x && m[first] == name
}

// Whether m is a map over n: its length is tested first, so any n will do.
pub fn is_map(n: usize, m: &[u8]) -> bool
    ensures { result ≡ is_map n m.now }
{
    m.len() == n && (0..n).all(|x| is_named(m, x))
}

// 1 where x is its own name, and so the smallest member of its block, 0 where it is not.
pub fn self_named(name: u8, x: usize) -> usize
    ensures { result ≡ bit (eqb name x) }
{
    usize::from(name as usize == x)
}

// How many of the first n bytes name their own element: the number of blocks.
pub fn block_count(n: usize, m: &[u8]) -> usize
    requires { n ≤ length m.now }
    ensures { result ≡ names n (byte m.now) }
{
    let mut count = 0;
    for x in 0..n {
        count += self_named(m[x], x);
    }
    count
}

// Whether every pair that a holds is held by b: each element is compared with the first of its block in a.
pub fn is_inside(n: usize, a: &[u8], b: &[u8]) -> bool
    requires n_in_bounds { n ≤ length a.now }
    requires n_in_bounds_2 { n ≤ length b.now }
    requires canonical { Canonical n (byte a.now) }
    ensures { result ≡ inside n a.now b.now }
{
    (0..n).all(|x| b[x] == b[a[x] as usize])
}

// Whether every element is alone in its block.
pub fn is_identity(n: usize, m: &[u8]) -> bool
    requires n_in_bounds { n ≤ length m.now }
    requires canonical { Canonical n (byte m.now) }
    ensures { result ≡ is_identity n m.now }
{
    (0..n).all(|x| m[x] as usize == x)
}
