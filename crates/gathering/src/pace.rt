// When Decompose begins to keep what pairs give. Keeping pays where many pairs are tried again and again; whatever is answered here, what is gathered is the same.
ghost use Rattle.std.specs.Prelude.{◌≡◌, ◌≤◌, length};
ghost use Rattle.equivalence.specs.Equivalence.{byte};
ghost use Rattle.kernel.specs.InnerKernel.{names};
ghost use Rattle.gathering.specs.InnerPace.{cuts_little, is_slow};

use equivalence::map::block_count;

// So many trials in vain for each four congruences are few. Of unary operations a trial is cheap; where an operation has more arguments, or there is none, no trials are few, since keeping
// pays at once.
pub fn few_trials(n: usize, arities: &[u8]) -> usize
    requires { n ≤ 64 }
    ensures { result ≤ 192 }
{
    if arities.is_empty() || arities.iter().any(|s| 1 < *s) {
        return 0;
    }
    3 * n
}

// Have the congruences so far, two or more, cut off little more than a block each?
#[tactic(auto, unfolding(crate::specs::InnerPace::cuts_little))]
fn cuts_little(n: usize, count: usize, met: &[u8]) -> bool
    requires n_in_bounds { n ≤ length met.now }
    requires count_bound { count ≤ 64 }
    ensures { result ≡ cuts_little count (names n (byte met.now)) }
{
    count >= 2 && block_count(n, met) < 2 * count
}

// Is gathering slow? Where little is cut off, and each congruence took a quarter of `few` trials or more.
#[tactic(auto, unfolding(crate::specs::InnerPace::is_slow))]
pub fn is_slow(n: usize, few: usize, count: usize, trials: usize, met: &[u8]) -> bool
    requires n_in_bounds { n ≤ length met.now }
    requires few_bound { few ≤ 192 }
    requires count_bound { count ≤ 64 }
    requires trials_bound { trials ≤ 262144 }
    ensures { result ≡ is_slow few count trials (names n (byte met.now)) }
{
    few * count <= 4 * trials && cuts_little(n, count, met)
}
