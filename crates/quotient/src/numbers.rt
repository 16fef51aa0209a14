// The numbers of a map's blocks, and each block's smallest member.
ghost use Rattle.std.specs.Prelude.{◌≡◌, ◌+◌, ◌<◌, ◌≤◌, T, length};
ghost use Rattle.equivalence.specs.Equivalence.{byte, is_map};
ghost use Rattle.quotient.specs.InnerNumbers.{Numbered};

use crate::Block;
use equivalence::Element;
use equivalence::map::self_named;

// The number of the element's block.
pub fn block_of(numbers: &[u8], e: Element) -> Block
    requires { e.0 < length numbers.now }
    ensures { result.0 ≡ byte numbers.now e.0 }
{
    let i = e.0 as usize;
    Block(numbers[i])
}

// Gives the number of blocks, the number of each element's block, and each block's smallest member.
pub fn number_blocks(n: usize, map: &[u8], numbers: &mut [u8], names: &mut [u8]) -> usize
    requires n_bound { n ≤ 64 }
    requires numbers_room { n ≤ length numbers.old }
    requires names_room { n ≤ length names.old }
    requires t { T (is_map n map.now) }
    ensures { Numbered n map.now numbers.new names.new result }
{
    let mut count = 0;
    for x in 0..n {
        // A smallest member has the next number; for any other element that number is overwritten by its smallest member's.
        let fresh = Block(count as u8);
        numbers[x] = fresh.0;
        let name = Element(map[x]);
        let b = block_of(numbers, name);
        numbers[x] = b.0;
        names[count] = x as u8;
        count += self_named(name.0, x);
    }
    count
}
