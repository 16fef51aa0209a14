// Whether a map is compatible with every operation. A table has a part for each first argument. The part of each element that is no name is compared
// with that of its name, cell by cell; then the parts of names, which are tables of the arity below, are walked alike. The first two cells that are in
// two blocks answer no.
ghost use Rattle.std.specs.Prelude.{◌≡◌, ◌+◌, ◌*◌, ◌^◌, ◌≤◌, length};
ghost use Rattle.equivalence.specs.Equivalence.{byte};
ghost use Rattle.algebra.specs.Accepted.{Accepted};
ghost use Rattle.algebra.specs.Algebra.{algebra_in};
ghost use Rattle.translation.specs.InnerTranslations.{Compatible};
ghost use Rattle.refinement.specs.InnerSplitting.{MapLent};
ghost use Rattle.likeness.specs.InnerAlike.{Says, WalkLent, Stretches, StretchAlike, PartsAlike, TableAlike, NamesAlike};

// How many cells are compared in one turn: the compiler lays them out one behind the other.
const TURN: usize = 8;

// What is walked over: a map of n elements, the cells of tables, and the elements that are no names.
#[derive(Clone, Copy)]
pub struct Walk<'a> {
    pub n: usize,
    pub m: &'a [u8],
    pub cells: &'a [u8],
    pub others: &'a [u8],
}

impl Walk<'_> {
    // Whether each of `count` cells from `base` on is in one block with the cell as far from `first`.
    fn few_alike(&self, base: usize, first: usize, count: usize) -> bool
        requires map_lent { MapLent self.now.n self.now.m.now self.now.cells.now }
        requires stretches { Stretches (length self.now.cells.now) base first count }
        ensures { Says result (StretchAlike count self.now.cells.now (byte self.now.m.now) base first) }
    {
        for i in 0..count {
            let image = self.cells[base + i] as usize;
            let expected = self.cells[first + i] as usize;
            if self.m[image] != self.m[expected] {
                return false;
            }
        }
        true
    }

    // The same, by turns.
    fn stretch_alike(&self, base: usize, first: usize, count: usize) -> bool
        requires map_lent { MapLent self.now.n self.now.m.now self.now.cells.now }
        requires stretches { Stretches (length self.now.cells.now) base first count }
        ensures { Says result (StretchAlike count self.now.cells.now (byte self.now.m.now) base first) }
    {
        // A `while`: each turn takes several cells.
        let mut i = 0;
        while TURN <= count - i {
            if !self.few_alike(base + i, first + i, TURN) {
                return false;
            }
            i += TURN;
        }
        self.few_alike(base + i, first + i, count - i)
    }

    // Whether the part of each element is alike to that of its name: only those that are no names are looked at.
    fn parts_alike(&self, base: usize, part: usize) -> bool
        requires walk_lent { WalkLent self.now.n self.now.m.now self.now.cells.now self.now.others.now (length self.now.others.now) }
        requires part_in_bounds { base + self.now.n * part ≤ length self.now.cells.now }
        ensures { Says result (PartsAlike self.now.n part self.now.cells.now (byte self.now.m.now) base) }
    {
        for x in self.others {
            let x = *x as usize;
            let name = self.m[x] as usize;
            if !self.stretch_alike(base + x * part, base + name * part, part) {
                return false;
            }
        }
        true
    }

    // The same of parts of one cell.
    fn line_alike(&self, base: usize) -> bool
        requires walk_lent { WalkLent self.now.n self.now.m.now self.now.cells.now self.now.others.now (length self.now.others.now) }
        requires n_in_bounds { base + self.now.n ≤ length self.now.cells.now }
        ensures { Says result (TableAlike self.now.n self.now.cells.now (byte self.now.m.now) base 1) }
    {
        for x in self.others {
            let x = *x as usize;
            let name = self.m[x] as usize;
            let image = self.cells[base + x] as usize;
            let expected = self.cells[base + name] as usize;
            if self.m[image] != self.m[expected] {
                return false;
            }
        }
        true
    }

    // The rows of all names in the plane at `base`.
    fn lines_alike(&self, base: usize) -> bool
        requires walk_lent { WalkLent self.now.n self.now.m.now self.now.cells.now self.now.others.now (length self.now.others.now) }
        requires n_in_bounds { base + self.now.n * self.now.n ≤ length self.now.cells.now }
        ensures { Says result (NamesAlike self.now.n self.now.n 1 self.now.cells.now (byte self.now.m.now) base) }
    {
        for x in 0..self.n {
            if self.m[x] as usize == x && !self.line_alike(base + x * self.n) {
                return false;
            }
        }
        true
    }

    // The table of arity 2 at `base`.
    fn plane_alike(&self, base: usize) -> bool
        requires walk_lent { WalkLent self.now.n self.now.m.now self.now.cells.now self.now.others.now (length self.now.others.now) }
        requires n_in_bounds { base + self.now.n * self.now.n ≤ length self.now.cells.now }
        ensures { Says result (TableAlike self.now.n self.now.cells.now (byte self.now.m.now) base 2) }
    {
        self.parts_alike(base, self.n) && self.lines_alike(base)
    }

    // The planes of all names in the table of arity 3 at `base`, `area` cells each.
    fn planes_alike(&self, base: usize, area: usize) -> bool
        requires walk_lent { WalkLent self.now.n self.now.m.now self.now.cells.now self.now.others.now (length self.now.others.now) }
        requires area_value { area ≡ self.now.n * self.now.n }
        requires area_in_bounds { base + self.now.n * area ≤ length self.now.cells.now }
        ensures { Says result (NamesAlike self.now.n area 2 self.now.cells.now (byte self.now.m.now) base) }
    {
        for x in 0..self.n {
            if self.m[x] as usize == x && !self.plane_alike(base + x * area) {
                return false;
            }
        }
        true
    }

    // The table of arity 3 at `base`.
    fn solid_alike(&self, base: usize) -> bool
        requires walk_lent { WalkLent self.now.n self.now.m.now self.now.cells.now self.now.others.now (length self.now.others.now) }
        requires n_in_bounds { base + self.now.n * self.now.n * self.now.n ≤ length self.now.cells.now }
        ensures { Says result (TableAlike self.now.n self.now.cells.now (byte self.now.m.now) base 3) }
    {
        let area = self.n * self.n;
        self.parts_alike(base, area) && self.planes_alike(base, area)
    }

    // The table of arity s that begins at `base`.
    fn table_alike(&self, base: usize, s: usize) -> bool
        requires walk_lent { WalkLent self.now.n self.now.m.now self.now.cells.now self.now.others.now (length self.now.others.now) }
        requires s_bound { s ≤ 3 }
        requires s_in_bounds { base + self.now.n ^ s ≤ length self.now.cells.now }
        ensures { Says result (TableAlike self.now.n self.now.cells.now (byte self.now.m.now) base s) }
    {
        match s {
            1 => self.line_alike(base),
            2 => self.plane_alike(base),
            3 => self.solid_alike(base),
            _ => true,
        }
    }

    // Every table of an accepted algebra.
    pub fn is_compatible(&self, arities: &[u8]) -> bool
        requires accepted { Accepted (algebra_in self.now.n arities self.now.cells) }
        requires walk_lent { WalkLent self.now.n self.now.m.now self.now.cells.now self.now.others.now (length self.now.others.now) }
        ensures { Says result (Compatible (algebra_in self.now.n arities.entry self.now.cells) (byte self.now.m.now)) }
    {
        let mut base = 0;
        for s in arities {
            let s = *s as usize;
            if !self.table_alike(base, s) {
                return false;
            }
            base += algebra::power(self.n, s);
        }
        true
    }
}
