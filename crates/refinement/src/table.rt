// The tables of an algebra, by their arity: lines, planes and solids. As in a plane, an argument before the varied one runs only through smallest
// members in use, and one behind it through all elements in use. Where every element in use is a smallest member, nothing more splits.
ghost use Rattle.std.specs.Prelude.{◌≡◌, false, ◌+◌, ◌*◌, ◌^◌, ◌<◌, ◌≤◌, length};
ghost use Rattle.equivalence.specs.Equivalence.{byte};
ghost use Rattle.algebra.specs.Accepted.{Accepted};
ghost use Rattle.algebra.specs.Algebra.{algebra_in};
ghost use Rattle.translation.specs.InnerLines.{SolidInside};
ghost use Rattle.refinement.specs.InnerSplitting.{Walk, PlaneAt, AllWalked, PlaneWalked, PlanesWalked, TableWalked, Represented};

use super::line::{Line, Round, split_line};
use super::plane::{Plane, split_lines, split_rows};

// Where the planes of a solid begin, and how far these, the lines of each and the cells of each are apart; and which of the arguments that
// stay are before the varied one: that of the planes, that of the lines.
#[derive(Clone, Copy)]
struct Solid {
    base: usize,
    layer: usize,
    row: usize,
    stride: usize,
    named: bool,
    inner: bool,
}

// The plane of the solid that begins at r times its layer; where that argument is before the varied one, only if r is a smallest member.
fn split_plane(m: &mut [u8], round: &Round, solid: Solid, r: usize, others: &mut [u8]) -> usize
    requires walk { Walk round.now.n round.now.live.now (length round.now.live.now) round.now.cells.now m.old others.old (length others.old) }
    requires plane_at { PlaneAt round.now.n m.old round.now.cells.now solid.base solid.layer solid.row solid.stride r }
    requires row_value { solid.inner ≡ false → solid.row ≡ 1 }
    ensures { PlaneWalked round.now.n round.now.live.now (length round.now.live.now) round.now.cells.now (solid.base + r * solid.layer) r solid.named solid.inner solid.row solid.stride m.old m.new others.new result }
{
    if solid.named && m[r] as usize != r {
        return others.len();
    }
    let base = solid.base + r * solid.layer;
    let stride = solid.stride;
    if solid.inner {
        let row = solid.row;
        return split_lines(m, round, Plane { base, row, stride }, others);
    }
    split_rows(m, round, Line { base, stride }, others)
}

// The planes of the solid that begin at an element in use.
fn split_planes(m: &mut [u8], round: &Round, solid: Solid, others: &mut [u8]) -> usize
    requires walk { Walk round.now.n round.now.live.now (length round.now.live.now) round.now.cells.now m.old others.old (length others.old) }
    requires solid_inside { SolidInside round.now.n round.now.cells.now solid.base solid.layer solid.row solid.stride }
    requires row_value { solid.inner ≡ false → solid.row ≡ 1 }
    ensures { PlanesWalked round.now.n round.now.live.now (length round.now.live.now) round.now.cells.now solid.base solid.named solid.inner solid.layer solid.row solid.stride m.old m.new others.new result }
{
    let mut left = others.len();
    for r in round.live {
        if left == 0 {
            return 0;
        }
        left = split_plane(m, round, solid, *r as usize, &mut others[..left]);
    }
    left
}

// The line of a table of arity 1.
fn split_unary(m: &mut [u8], round: &Round, base: usize, others: &mut [u8]) -> usize
    requires walk { Walk round.now.n round.now.live.now (length round.now.live.now) round.now.cells.now m.old others.old (length others.old) }
    requires n_in_bounds { base + round.now.n ≤ length round.now.cells.now }
    ensures { TableWalked round.now.n round.now.live.now (length round.now.live.now) round.now.cells.now base 1 m.old m.new others.new result }
{
    split_line(m, round, Line { base, stride: 1 }, others)
}

// The lines of a table of arity 2.
fn split_binary(m: &mut [u8], round: &Round, base: usize, others: &mut [u8]) -> usize
    requires walk { Walk round.now.n round.now.live.now (length round.now.live.now) round.now.cells.now m.old others.old (length others.old) }
    requires n_in_bounds { base + round.now.n * round.now.n ≤ length round.now.cells.now }
    ensures { TableWalked round.now.n round.now.live.now (length round.now.live.now) round.now.cells.now base 2 m.old m.new others.new result }
{
    let n = round.n;
    let columns = Line { base, stride: n };
    let rows = Plane {
        base,
        row: n,
        stride: 1,
    };
    let left = split_rows(m, round, columns, others);
    split_lines(m, round, rows, &mut others[..left])
}

// The lines of a table of arity 3.
fn split_ternary(m: &mut [u8], round: &Round, base: usize, others: &mut [u8]) -> usize
    requires walk { Walk round.now.n round.now.live.now (length round.now.live.now) round.now.cells.now m.old others.old (length others.old) }
    requires n_in_bounds { base + round.now.n * round.now.n * round.now.n ≤ length round.now.cells.now }
    ensures { TableWalked round.now.n round.now.live.now (length round.now.live.now) round.now.cells.now base 3 m.old m.new others.new result }
{
    let n = round.n;
    let area = n * n;
    let firsts = Solid {
        base,
        layer: n,
        row: 1,
        stride: area,
        named: false,
        inner: false,
    };
    let first = split_planes(m, round, firsts, others);
    let seconds = Solid {
        base,
        layer: area,
        row: 1,
        stride: n,
        named: true,
        inner: false,
    };
    let second = split_planes(m, round, seconds, &mut others[..first]);
    let thirds = Solid {
        base,
        layer: area,
        row: n,
        stride: 1,
        named: true,
        inner: true,
    };
    split_planes(m, round, thirds, &mut others[..second])
}

// The lines of the operation of arity s whose table begins at `base`.
fn split_table(m: &mut [u8], round: &Round, base: usize, s: usize, others: &mut [u8]) -> usize
    requires walk { Walk round.now.n round.now.live.now (length round.now.live.now) round.now.cells.now m.old others.old (length others.old) }
    requires s_bound { s ≤ 3 }
    requires s_in_bounds { base + round.now.n ^ s ≤ length round.now.cells.now }
    ensures { TableWalked round.now.n round.now.live.now (length round.now.live.now) round.now.cells.now base s m.old m.new others.new result }
{
    match s {
        1 => split_unary(m, round, base, others),
        2 => split_binary(m, round, base, others),
        3 => split_ternary(m, round, base, others),
        _ => others.len(),
    }
}

// The lines of every table of an accepted algebra.
pub fn split_all(m: &mut [u8], round: &Round, arities: &[u8], others: &mut [u8]) -> usize
    requires accepted { Accepted (algebra_in round.now.n arities round.now.cells) }
    requires walk { Walk round.now.n round.now.live.now (length round.now.live.now) round.now.cells.now m.old others.old (length others.old) }
    requires represented { Represented (algebra_in round.now.n arities round.now.cells) round.now.live.now (length round.now.live.now) (byte m.old) }
    ensures { AllWalked (algebra_in round.now.n arities.entry round.now.cells) round.now.live.now (length round.now.live.now) m.old m.new others.new result }
{
    let mut left = others.len();
    let mut base = 0;
    for s in arities {
        if left == 0 {
            return 0;
        }
        let s = *s as usize;
        left = split_table(m, round, base, s, &mut others[..left]);
        base += algebra::power(round.n, s);
    }
    left
}
