// The order of pairs, and which of two maps is the earlier. The maps are the first n bytes of what is handed in.
ghost use Rattle.std.specs.Prelude.{◌≡◌, ◌+◌, ◌-◌, ◌<◌, ◌≤◌, length};
ghost use Rattle.equivalence.specs.Equivalence.{byte};
ghost use Rattle.kernel.specs.InnerKernel.{Canonical};
ghost use Rattle.pairorder.specs.Order.{first_held, not_later, row_start};
ghost use Rattle.kernel.specs.InnerSearch.{foremost};

use equivalence::Pair;

// y where it passes and its value is smaller than that of `at`, else `at`; 0, which never passes, stands for none.
#[tactic(auto, unfolding(kernel::specs::InnerSearch::foremost))]
fn foremost_of(at: usize, value: u8, y: usize, new: u8, passes: bool) -> usize
    ensures { result ≡ foremost at value y new passes }
{
    if passes && (at == 0 || new < value) {
        y
    } else {
        at
    }
}

// The first pair that m holds, or 0 and 0. It is the smallest name that an element has besides its own, and the first such element.
pub fn first_held(n: usize, m: &[u8]) -> Pair
    requires le_n { 1 ≤ n }
    requires n_in_bounds { n ≤ length m.now }
    requires canonical { Canonical n (byte m.now) }
    ensures { (result.x, result.y) ≡ first_held n m.now }
{
    let mut at = 0;
    for y in 1..n {
        let name = m[y];
        at = foremost_of(at, m[at], y, name, name as usize != y);
    }
    Pair {
        x: m[at] as usize,
        y: at,
    }
}

// Whether a is b or the earlier of the two. The first pair in which they differ joins the first element whose name is the smallest among
// the names of elements that the two name differently: the one with this name holds the pair.
pub fn is_not_later(n: usize, a: &[u8], b: &[u8]) -> bool
    requires le_n { 1 ≤ n }
    requires n_in_bounds { n ≤ length a.now }
    requires n_in_bounds_2 { n ≤ length b.now }
    requires canonical { Canonical n (byte a.now) }
    requires canonical_2 { Canonical n (byte b.now) }
    ensures { result ≡ not_later n a.now b.now }
{
    let mut at = 0;
    for y in 1..n {
        let p = a[y];
        let q = b[y];
        at = foremost_of(at, a[at].min(b[at]), y, p.min(q), p != q);
    }
    a[at] <= b[at]
}

// The number of pairs of 64 elements in the rows before row x: the sum of 63, 62, .., 64 - x, which are x numbers, the first and the last together
// 127 - x.
fn row_start(x: usize) -> usize
    requires { x < 64 }
    ensures { result ≡ row_start x }
{
    x * (127 - x) / 2
}

// The place of the pair (x, y) among the pairs of 64 elements.
pub fn place(x: usize, y: usize) -> usize
    requires x_lt_y { x < y }
    requires y_bound { y < 64 }
    ensures { result ≡ row_start x + y - x - 1 }
{
    row_start(x) + y - x - 1
}
