// What a closure begins with: pairs joined, and a list of the elements that are no names of a map.
ghost use Rattle.std.specs.Prelude.{◌≡◌, not, ℕ, ◌<◌, ◌≤◌, eqb, length};
ghost use Rattle.equivalence.specs.Equivalence.{byte};
ghost use Rattle.sweep.specs.InnerQueue.{state_of, Ready, Grown};
ghost use Rattle.closure.specs.InnerStarts.{JoinsPairs, Pushed, Collected};

use sweep::queue::Merging;

// 64 bytes, each of which names itself.
pub fn fresh() -> [u8; 64]
    ensures { (x : ℕ) → x < 64 → byte result x ≡ x }
{
    let mut m = [0u8; 64];
    equivalence::blocks::identity(64, &mut m);
    m
}

// Joins the pairs of a flat list.
pub fn seed(merging: &mut Merging, n: usize, pairs: &[u8])
    requires ready { Ready n (state_of merging.old) }
    requires by_index { (i : ℕ) → i < length pairs.now → byte pairs.now i < n }
    ensures grown { Grown n (JoinsPairs pairs.now) (state_of merging.old) (state_of merging.new) }
    ensures joins_pairs { JoinsPairs pairs.now (byte merging.new.map) }
{
    for j in 0..pairs.len() / 2 {
        merging.merge(n, pairs[2 * j], pairs[2 * j + 1]);
    }
}

// Puts x behind the first `len` elements where it is wanted.
fn push(out: &mut [u8], len: usize, x: u8, wanted: bool) -> usize
    requires { len < length out.old }
    ensures { Pushed x wanted (byte out.old) len (byte out.new) result }
{
    if !wanted {
        return len;
    }
    out[len] = x;
    len + 1
}

// Lists the elements that are no names. How many there are.
pub fn others(m: &[u8], n: usize, out: &mut [u8]) -> usize
    requires n_in_bounds { n ≤ length m.now }
    requires n_in_bounds_2 { n ≤ length out.old }
    requires n_bound { n ≤ 64 }
    ensures { Collected (λ x. not (eqb (byte m.now x) x)) n (byte out.new) result }
{
    let mut len = 0;
    for x in 0..n {
        len = push(out, len, x as u8, m[x] as usize != x);
    }
    len
}
