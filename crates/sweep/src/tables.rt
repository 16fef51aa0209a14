// The images of two elements x and y under all translations of an operation, and of every operation, joined in the map.
ghost use Rattle.std.specs.Prelude.{◌≡◌, true, ◌+◌, ◌*◌, ◌^◌, ◌<◌, ◌≤◌, length};
ghost use Rattle.kernel.specs.InnerKernel.{Listed};
ghost use Rattle.algebra.specs.Algebra.{algebra_of};
ghost use Rattle.algebra.specs.Accepted.{Accepted};
ghost use Rattle.sweep.specs.InnerContexts.{OperationsIn, JoinsRow, JoinsRows, JoinsTable, ContextsIn, RowInside, RowsInside, TableInside, lines_of, shifted, row_at, rows_of};
ghost use Rattle.sweep.specs.InnerSweeps.{SweepingIn, SweptIn};

use crate::queue::Merging;
use crate::{ImagePair, LinePair, Pass};

// The lines on which the compared argument counts `scale`.
fn lines_of(images: ImagePair, scale: usize, stride: usize) -> LinePair
    requires scale_bound { images.o + images.x * scale < 32768 }
    requires scale_bound_2 { images.o + images.y * scale < 32768 }
    ensures { result ≡ lines_of images scale stride }
{
    LinePair {
        p: images.o + images.x * scale,
        q: images.o + images.y * scale,
        stride,
    }
}

// The same elements in a table that begins `shift` cells later.
fn shifted_by(images: ImagePair, shift: usize) -> ImagePair
    requires { images.o + shift < 32768 }
    ensures { result ≡ shifted images shift }
{
    ImagePair {
        o: images.o + shift,
        x: images.x,
        y: images.y,
    }
}

// How many rows a table has.
fn rows_of(deep: bool, count: usize) -> usize
    ensures { result ≡ rows_of deep count }
{
    if deep { count } else { 1 }
}

// Which row comes at index i.
fn row_at(deep: bool, live: &[u8], i: usize) -> u8
    requires { deep ≡ true → i < length live.now }
    ensures { result ≡ row_at deep live.now i }
{
    if deep {
        return live[i];
    }
    0
}

// How many cells the table of an operation of arity s has.
fn cells_of(n: usize, s: usize) -> usize
    requires n_bound { n ≤ 64 }
    requires s_bound { s ≤ 3 }
    ensures { result ≡ n ^ s }
{
    if s == 1 {
        return n;
    }
    if s == 2 {
        return n * n;
    }
    if s == 3 {
        return n * n * n;
    }
    1
}

impl<'a> Pass<'a> {
    // Row c of a table: the plane in which c stands first, with its last and its middle argument varied at once; and if the table is deep, the line in which c stands
    // second, with the first argument varied.
    fn row(&self, merging: &mut Merging, deep: bool, images: ImagePair, c: u8)
        requires sweeping { SweepingIn self.now merging.old }
        requires contexts { ContextsIn self.now }
        requires row_inside { RowInside self.now.n self.now.cells.now deep images c }
        ensures { SweptIn self.now (JoinsRow self.now.n self.now.cells.now self.now.live.now (length self.now.live.now) deep images c) merging.old merging.new }
    {
        let n = self.n;
        let area = n * n;
        let plane = shifted_by(images, c as usize * area);
        let last = lines_of(plane, 1, n);
        let middle = lines_of(plane, n, 1);
        self.cross(merging, last, middle);
        if !deep {
            return;
        }
        let first = lines_of(shifted_by(images, c as usize * n), area, 1);
        self.line(merging, first);
    }

    // A table of arity 2, or 3 if it is deep, row by row: there is one place for all that calls `cross`, so that it can stand within the loop.
    fn rows(&self, merging: &mut Merging, deep: bool, images: ImagePair)
        requires sweeping { SweepingIn self.now merging.old }
        requires contexts { ContextsIn self.now }
        requires rows_inside { RowsInside self.now.n self.now.cells.now self.now.live.now (length self.now.live.now) deep images }
        ensures { SweptIn self.now (JoinsRows self.now.n self.now.cells.now self.now.live.now (length self.now.live.now) deep images (rows_of deep (length self.now.live.now))) merging.old merging.new }
    {
        let all = rows_of(deep, self.live.len());
        for i in 0..all {
            if self.halted(merging) {
                return;
            }
            let c = row_at(deep, self.live, i);
            self.row(merging, deep, images, c);
        }
    }

    // The table of an operation of arity s.
    fn table(&self, merging: &mut Merging, s: usize, images: ImagePair)
        requires sweeping { SweepingIn self.now merging.old }
        requires contexts { ContextsIn self.now }
        requires table_inside { TableInside self.now.n self.now.cells.now s images }
        requires s_bound { s ≤ 3 }
        ensures { SweptIn self.now (JoinsTable self.now.n self.now.cells.now self.now.live.now (length self.now.live.now) s images) merging.old merging.new }
    {
        if s == 1 {
            let a = self.cells[images.o + images.x];
            let b = self.cells[images.o + images.y];
            self.step(merging, a, b);
            return;
        }
        if s < 2 {
            return;
        }
        self.rows(merging, s == 3, images);
    }

    // Every operation.
    pub fn operations(&self, merging: &mut Merging, arities: &[u8], x: usize, y: usize)
        requires sweeping { SweepingIn self.now merging.old }
        requires contexts { ContextsIn self.now }
        requires accepted { Accepted (algebra_of self.now.n arities.now self.now.cells.now) }
        requires x_lt_n { x < self.now.n }
        requires y_lt_n { y < self.now.n }
        ensures { SweptIn self.now (OperationsIn (algebra_of self.now.n arities.now self.now.cells.now) (length arities.now) (Listed self.now.live.now (length self.now.live.now)) x y) merging.old merging.new }
    {
        let mut o = 0;
        for j in 0..arities.len() {
            if self.halted(merging) {
                return;
            }
            let s = arities[j] as usize;
            self.table(merging, s, ImagePair { o, x, y });
            o += cells_of(self.n, s);
        }
    }
}
