// Whether an equivalence is a congruence, by kept pairs. It lies above a congruence of which the listed elements meet every block; what is kept for neighbours among the
// listed elements of each of its blocks has to lie inside it.
ghost use Rattle.std.specs.Prelude.{◌≡◌, ◌<◌, ◌≤◌, length};
ghost use Rattle.equivalence.specs.Equivalence.{byte};
ghost use Rattle.kernel.specs.InnerKernel.{Canonical};
ghost use Rattle.algebra.specs.Algebra.{algebra_in};
ghost use Rattle.algebra.specs.Accepted.{Accepted};
ghost use Rattle.keeping.specs.InnerKeeping.{Keeping};
ghost use Rattle.keeping.specs.InnerInside.{NamesInside, PairAsked, PairInside, NextInside, LastAsked, LastInside, ListedElements, AllAsked, Testing, Proved};

use crate::pairs::keep_pair;

// No element, where the last one of a block is asked for.
const NONE: u8 = 64;

// Whether `up` joins each element with its name in `kept`.
fn is_inside(n: usize, kept: &[u8], up: &[u8]) -> bool
    requires n_in_bounds { n ≤ length kept.now }
    requires canonical { Canonical n (byte kept.now) }
    requires n_in_bounds_2 { n ≤ length up.now }
    ensures { NamesInside n (byte kept.now) (byte up.now) result }
{
    (0..n).all(|z| up[z] == up[kept[z] as usize])
}

// Whether what is kept for x < y lies inside `up`.
fn pair_inside(
    maps: &mut [u8],
    marks: &mut [u8],
    n: usize,
    arities: &[u8],
    cells: &[u8],
    x: usize,
    y: usize,
    up: &[u8],
) -> bool
    requires { PairAsked (algebra_in n arities cells) x y maps.old marks.old (length up.now) }
    ensures { PairInside (algebra_in n arities.entry cells.entry) x y (byte up.now) maps.new marks.new result }
{
    let p = keep_pair(maps, marks, n, arities, cells, x, y);
    let at = p * 64;
    is_inside(n, &maps[at..], up)
}

// The same for two elements in any order. Where `seen` is no element, or is y, yes.
fn next_inside(
    maps: &mut [u8],
    marks: &mut [u8],
    n: usize,
    arities: &[u8],
    cells: &[u8],
    seen: u8,
    y: usize,
    up: &[u8],
) -> bool
    requires keeping { Keeping (algebra_in n arities cells) maps.old marks.old }
    requires accepted { Accepted (algebra_in n arities cells) }
    requires n_in_bounds { n ≤ length up.now }
    requires y_lt_n { y < n }
    ensures { NextInside (algebra_in n arities.entry cells.entry) seen y (byte up.now) maps.new marks.new result }
{
    let x = seen as usize;
    if x >= n {
        return true;
    }
    if x == y {
        return true;
    }
    if x < y {
        return pair_inside(maps, marks, n, arities, cells, x, y, up);
    }
    pair_inside(maps, marks, n, arities, cells, y, x, up)
}

// Whether that is so for `name` and the last element seen of its block. It is then the last.
fn last_inside(
    maps: &mut [u8],
    marks: &mut [u8],
    n: usize,
    arities: &[u8],
    cells: &[u8],
    name: u8,
    up: &[u8],
    last: &mut [u8],
) -> bool
    requires { LastAsked (algebra_in n arities cells) name (length up.now) (byte up.now) maps.old marks.old (length last.old) }
    ensures { LastInside (algebra_in n arities.entry cells.entry) name (byte up.now) last.old last.new maps.new marks.new result }
{
    let y = name as usize;
    let block = up[y] as usize;
    let seen = last[block];
    last[block] = name;
    next_inside(maps, marks, n, arities, cells, seen, y, up)
}

// Whether that is so for all listed elements.
fn all_inside(
    maps: &mut [u8],
    marks: &mut [u8],
    n: usize,
    arities: &[u8],
    cells: &[u8],
    names: &[u8],
    count: usize,
    up: &[u8],
    last: &mut [u8],
) -> bool
    requires all_asked { AllAsked (algebra_in n arities cells) names.now count (length up.now) (byte up.now) }
    requires testing { Testing (algebra_in n arities cells) names.now 0 (byte up.now) maps.old marks.old last.old }
    ensures { Proved (algebra_in n arities.entry cells.entry) names.now count (byte up.now) maps.new marks.new result }
{
    for i in 0..count {
        if !last_inside(maps, marks, n, arities, cells, names[i], up, last) {
            return false;
        }
    }
    true
}

// Whether what is kept for pairs shows that `up` is a congruence. A yes is right where `up` lies above a congruence whose blocks all have listed elements.
pub fn is_proved(
    maps: &mut [u8],
    marks: &mut [u8],
    n: usize,
    arities: &[u8],
    cells: &[u8],
    names: &[u8],
    count: usize,
    up: &[u8],
) -> bool
    requires keeping { Keeping (algebra_in n arities cells) maps.old marks.old }
    requires accepted { Accepted (algebra_in n arities cells) }
    requires listed_elements { ListedElements n names.now count (length up.now) (byte up.now) }
    ensures { Proved (algebra_in n arities.entry cells.entry) names.now count (byte up.now) maps.new marks.new result }
{
    let mut last = [NONE; 64];
    all_inside(maps, marks, n, arities, cells, names, count, up, &mut last)
}
