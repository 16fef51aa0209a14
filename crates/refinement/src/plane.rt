// The lines of a plane. The argument that stays runs through the elements in use; where it is before the varied one, only through smallest members
// of these: where a map is kept along earlier arguments, the others give nothing new. Each function splits m, and shortens the list of those elements
// in use that are no smallest members; it gives how many these are.
ghost use Rattle.std.specs.Prelude.{true, false, length, ◌+◌, ◌*◌, ◌<◌};
ghost use Rattle.equivalence.specs.Equivalence.{byte};
ghost use Rattle.translation.specs.InnerLines.{PlaneInside};
ghost use Rattle.refinement.specs.InnerSplitting.{Elements, CellsLent, RowsLent, Parted, MapLent, ElementSplit, LineAt, ChosenSplit, Walk, LinesWalked, FirstApart};

use super::line::{Line, Round, sift, split_at, split_line};

// Where the lines of a plane begin, and how far these and the cells of each are apart.
#[derive(Clone, Copy)]
pub struct Plane {
    pub base: usize,
    pub row: usize,
    pub stride: usize,
}

// Where the row of an element begins, and that of the smallest member of its block.
#[derive(Clone, Copy)]
struct Rows {
    here: usize,
    there: usize,
}

// Whether the cells of the two rows at c are in different blocks.
fn parted(m: &[u8], round: &Round, rows: Rows, c: usize) -> bool
    requires { CellsLent round.now.n m.now round.now.cells.now (rows.here + c) (rows.there + c) }
    ensures { Parted (byte m.now (byte round.now.cells.now (rows.here + c))) (byte m.now (byte round.now.cells.now (rows.there + c))) result }
{
    let image = round.cells[rows.here + c] as usize;
    let expected = round.cells[rows.there + c] as usize;
    m[image] != m[expected]
}

// The first index of an element in use at which the cell of x is in another block than that of its block's smallest member.
// `base` is that of the lines which begin one after the other: the cells that are compared stand in two rows.
fn apart(m: &[u8], round: &Round, line: Line, x: usize) -> Option<usize>
    requires rows_lent { RowsLent round.now.n m.now round.now.cells.now line.base line.stride x }
    requires elements { Elements round.now.n round.now.live.now (length round.now.live.now) }
    ensures { FirstApart round.now.live.now (length round.now.live.now) round.now.cells.now line.base line.stride x (byte m.now) result }
{
    let here = line.base + x * line.stride;
    let there = line.base + m[x] as usize * line.stride;
    let rows = Rows { here, there };
    // A `while`: each turn looks at two elements.
    let mut i = 0;
    while i + 1 < round.live.len() {
        let c = round.live[i] as usize;
        if parted(m, round, rows, c) {
            return Some(i);
        }
        let d = round.live[i + 1] as usize;
        if parted(m, round, rows, d) {
            return Some(i + 1);
        }
        i += 2;
    }
    if round.live.len() <= i {
        return None;
    }
    let last = round.live[i] as usize;
    if parted(m, round, rows, last) {
        return Some(i);
    }
    None
}

// Splits along the lines at which x and the smallest member of its block are taken apart, until there is none.
fn split_element(m: &mut [u8], round: &Round, line: Line, x: usize)
    requires map_lent { MapLent round.now.n m.old round.now.cells.now }
    requires plane_inside { PlaneInside round.now.n round.now.cells.now line.base 1 line.stride }
    requires elements { Elements round.now.n round.now.live.now (length round.now.live.now) }
    requires x_lt_n { x < round.now.n }
    ensures { ElementSplit round.now.n round.now.live.now (length round.now.live.now) round.now.cells.now line.base line.stride x m.old m.new }
{
    // A `while`: what is split decides how often.
    while m[x] as usize != x {
        let Some(i) = apart(m, round, line, x) else {
            return;
        };
        let context = Line {
            base: line.base + round.live[i] as usize,
            stride: line.stride,
        };
        split_at(m, round, context, x);
    }
}

// The lines that begin one after the other from the base of `line`, element by element.
pub fn split_rows(m: &mut [u8], round: &Round, line: Line, others: &mut [u8]) -> usize
    requires walk { Walk round.now.n round.now.live.now (length round.now.live.now) round.now.cells.now m.old others.old (length others.old) }
    requires plane_inside { PlaneInside round.now.n round.now.cells.now line.base 1 line.stride }
    ensures { LinesWalked round.now.n round.now.live.now (length round.now.live.now) round.now.cells.now line.base false 1 line.stride m.old m.new others.new result }
{
    for x in others.iter() {
        split_element(m, round, line, *x as usize);
    }
    sift(m, others)
}

// The line of the plane that begins at r times its row, if r is a smallest member.
fn split_chosen(m: &mut [u8], round: &Round, plane: Plane, r: usize, others: &mut [u8]) -> usize
    requires line_at { LineAt round.now.n m.old round.now.cells.now plane.base plane.row plane.stride r }
    requires elements { Elements round.now.n others.old (length others.old) }
    ensures { ChosenSplit round.now.n round.now.cells.now (plane.base + r * plane.row) plane.stride r m.old m.new others.old (length others.old) others.new result }
{
    if m[r] as usize != r {
        return others.len();
    }
    let line = Line {
        base: plane.base + r * plane.row,
        stride: plane.stride,
    };
    split_line(m, round, line, others)
}

// The lines of the plane that begin at a smallest member in use. Where every element in use is one, none splits.
pub fn split_lines(m: &mut [u8], round: &Round, plane: Plane, others: &mut [u8]) -> usize
    requires walk { Walk round.now.n round.now.live.now (length round.now.live.now) round.now.cells.now m.old others.old (length others.old) }
    requires plane_inside { PlaneInside round.now.n round.now.cells.now plane.base plane.row plane.stride }
    ensures { LinesWalked round.now.n round.now.live.now (length round.now.live.now) round.now.cells.now plane.base true plane.row plane.stride m.old m.new others.new result }
{
    let mut left = others.len();
    for r in round.live {
        if left == 0 {
            return 0;
        }
        left = split_chosen(m, round, plane, *r as usize, &mut others[..left]);
    }
    left
}
