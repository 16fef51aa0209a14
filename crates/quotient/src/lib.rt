// The quotient of an algebra by a map: the numbers of the blocks, and the tables over blocks.
#![tactic(auto)]

ghost use Rattle.std.specs.Prelude.{◌≡◌, ◌≤◌, T, length};
ghost use Rattle.equivalence.specs.Equivalence.{is_map, blocks};
ghost use Rattle.equivalence.specs.Lent.{written};
ghost use Rattle.algebra.specs.Algebra.{algebra_in, cell_count};
ghost use Rattle.algebra.specs.Accepted.{Accepted};
ghost use Rattle.quotient.specs.Quotient.{quotient_cells};

use equivalence::checks::MAX_SIZE;

pub mod numbers;
pub mod tables;

// A block number of a quotient. Blocks are numbered from 0 by smallest member.
#[derive(Debug, Clone, Copy, PartialEq, Eq)]
pub struct Block(pub u8);

// Numbers the blocks, then writes each table read at smallest members.
fn divide_blocks(n: usize, arities: &[u8], cells: &[u8], map: &[u8], out: &mut [u8]) -> u8
    requires accepted { Accepted (algebra_in n arities cells) }
    requires t { T (is_map n map.now) }
    requires arities_in_bounds { cell_count (blocks n map.now) arities.now ≤ length out.old }
    ensures out_after { out.new ≡ written (quotient_cells (algebra_in n arities.entry cells.entry) map.now) out.old }
    ensures value { result ≡ blocks n map.now }
{
    let mut block_numbers = [0; MAX_SIZE];
    let mut names = [0; MAX_SIZE];
    let b = numbers::number_blocks(n, map, &mut block_numbers, &mut names);
    tables::divide_tables(n, arities, cells, &block_numbers, &names[..b], out);
    b as u8
}

// Writes the quotient's tables at the start of `out` and gives the number of blocks. For a map that is no congruence the tables are those
// at the smallest members. By the identity they are the algebra's own.
pub fn divide(n: usize, arities: &[u8], cells: &[u8], map: &[u8], out: &mut [u8]) -> u8
    requires accepted { Accepted (algebra_in n arities cells) }
    requires t { T (is_map n map.now) }
    requires arities_in_bounds { cell_count (blocks n map.now) arities.now ≤ length out.old }
    ensures out_after { out.new ≡ written (quotient_cells (algebra_in n arities.entry cells.entry) map.now) out.old }
    ensures value { result ≡ blocks n map.now }
{
    if equivalence::map::is_identity(n, map) {
        equivalence::blocks::copy(cells.len(), cells, out);
        return n as u8;
    }
    divide_blocks(n, arities, cells, map, out)
}
