// Rows of numbers of one digit: each number and the gap behind it are taken as one, so that many of them can be tested, and stored, at a time.
ghost use Rattle.std.specs.Prelude.{true, ◌≡◌, ◌+◌, ◌*◌, ◌≤◌, ◌<◌, length};
ghost use Rattle.tablereader.specs.InnerPromises.{RoomFor};
ghost use Rattle.tablereader.specs.InnerRows.{RowBegunBy, TwoBytes, ShortItems};

use crate::Spot;
use crate::rows::RowSoFar;

// A 0 and a 9, each with a gap behind it: `0` and `9`, and 256 times a space.
const FIRST_ITEM: u16 = 8240;

const LAST_ITEM: u16 = 8249;

// Two bytes as one number, the first one lowest.
fn two_bytes(text: &[u8], at: usize) -> u16
    requires { at + 2 ≤ length text.now }
    ensures { TwoBytes text.now at result }
{
    u16::from_le_bytes([text[at], text[at + 1]])
}

// Whether so many numbers of one digit stand here, each with a gap behind it. All are looked at, without an early exit, so that the loop can take many at a time.
fn is_short(count: usize, text: &[u8], at: usize) -> bool
    requires { at + 2 * count ≤ length text.now }
    ensures { result ≡ true → ShortItems count text.now at }
{
    let mut low = FIRST_ITEM;
    let mut high = LAST_ITEM;
    for i in 0..count {
        let item = two_bytes(text, at + 2 * i);
        low = low.min(item);
        high = high.max(item);
    }
    if low < FIRST_ITEM {
        return false;
    }
    high <= LAST_ITEM
}

// All numbers of a row but the last, if they have one digit; else none.
pub fn read_short(n: u8, text: &[u8], from: Spot, cells: &mut [u8]) -> RowSoFar
    requires room_for { RoomFor n text.now from.at cells.old from.put }
    requires n_nonzero { (0 < n) × (from.at + 2 * n ≤ length text.now) }
    ensures { RowBegunBy n text.entry from cells.entry cells.exit result }
{
    let count = n as usize - 1;
    let Spot { at, put } = from;
    if !is_short(count, text, at) {
        return RowSoFar {
            more: n,
            here: from,
        };
    }
    for i in 0..count {
        cells[put + i] = (two_bytes(text, at + 2 * i) - FIRST_ITEM) as u8;
    }
    RowSoFar {
        more: 1,
        here: Spot {
            at: at + 2 * count,
            put: put + count,
        },
    }
}
