// The tables over blocks. An operation's table begins at `from` in the cells, its quotient's at `to` in the lent bytes.
ghost use Rattle.std.specs.Prelude.{◌≡◌, ◌+◌, ◌*◌, ◌<◌, ◌≤◌, length};
ghost use Rattle.equivalence.specs.Equivalence.{byte};
ghost use Rattle.quotient.specs.InnerTables.{source_in, cell_divided, row_divided, divided, AllDivided, SourceRight, Fits, RowFits, AllFit};
ghost use Rattle.equivalence.specs.Lent.{laid};

use crate::numbers::block_of;
use equivalence::Element;

// What the tables are made from, each part right for the others: the cells, each element's block number, and each block's smallest member,
// at which the cells are read.
#[derive(Drop)]
struct Source<'a> {
    n: usize,
    cells: &'a [u8],
    numbers: &'a [u8],
    names: &'a [u8],
    ghost right: { SourceRight (source_in n cells numbers names) },
}

// Arity 0: the block of the constant.
fn divide_cell(cells: &[u8], numbers: &[u8], from: usize, out: &mut [u8], to: usize)
    requires from_in_bounds { from < length cells.now }
    requires from_in_bounds_2 { byte cells.now from < length numbers.now }
    requires out_room { to < length out.old }
    ensures { out.new ≡ laid out.old to (cell_divided cells.now numbers.now from) }
{
    let e = Element(cells[from]);
    let block = block_of(numbers, e);
    out[to] = block.0;
}

impl Source<'_> {
    // Arity 1: a cell for each block.
    fn divide_row(&self, from: usize, out: &mut [u8], to: usize)
        requires { RowFits self.now.cells.now self.now.numbers.now self.now.names.now from out.old to }
        ensures { out.new ≡ laid out.old to (row_divided self.now.cells.now self.now.numbers.now self.now.names.now from) }
    {
        // By names of their own: of a struct that is lent, each would be read anew for every cell.
        let cells = self.cells;
        let numbers = self.numbers;
        for (k, first) in self.names.iter().enumerate() {
            divide_cell(cells, numbers, from + *first as usize, out, to + k);
        }
    }

    // The table of an operation of any arity: above arity 1, one table with an argument less for each block of the first argument.
    fn divide_table(&self, s: usize, from: usize, out: &mut [u8], to: usize)
        requires s_bound { s ≤ 3 }
        requires fits { Fits (source_in self.now.n self.now.cells self.now.numbers self.now.names) s from out.old to }
        ensures { out.new ≡ laid out.old to (divided (source_in self.now.n self.now.cells self.now.numbers self.now.names) s from) }
    {
        if s == 0 {
            return divide_cell(self.cells, self.numbers, from, out, to);
        }
        if s == 1 {
            return self.divide_row(from, out, to);
        }
        let width = algebra::power(self.n, s - 1);
        let height = algebra::power(self.names.len(), s - 1);
        for (k, first) in self.names.iter().enumerate() {
            let inner = from + *first as usize * width;
            let place = to + k * height;
            // A row where it is one: a call of this function for each costs more than a short row.
            if s == 2 {
                self.divide_row(inner, out, place);
            } else {
                self.divide_table(s - 1, inner, out, place);
            }
        }
    }
}

// The tables of all operations, one after the other. `numbers` has each element's block number and `names`, as long as there are blocks,
// each block's smallest member.
pub fn divide_tables(
    n: usize,
    arities: &[u8],
    cells: &[u8],
    numbers: &[u8],
    names: &[u8],
    out: &mut [u8],
)
    requires source_right { SourceRight (source_in n cells numbers names) }
    requires all_fit { AllFit (source_in n cells numbers names) arities.now out.old }
    ensures { AllDivided (source_in n cells.entry numbers.entry names.entry) arities.now out.old out.new }
{
    let source = Source {
        n,
        cells,
        numbers,
        names,
    };
    let mut from = 0;
    let mut to = 0;
    for arity in arities {
        let s = *arity as usize;
        source.divide_table(s, from, out, to);
        from += algebra::power(n, s);
        to += algebra::power(names.len(), s);
    }
}
