// One line of a table: the cells that one argument runs through while the others stay. It keeps a map, or it splits blocks. Only listed
// elements are compared with the smallest members of their blocks.
ghost use Rattle.std.specs.Prelude.{◌≡◌, ℕ, ◌+◌, ◌*◌, ◌<◌, ◌≤◌, length};
ghost use Rattle.equivalence.specs.Equivalence.{byte};
ghost use Rattle.kernel.specs.InnerKernel.{KeptPast, seen_or};
ghost use Rattle.translation.specs.InnerLines.{line_at, LineInside};
ghost use Rattle.refinement.specs.InnerSplitting.{Elements, MapLent, LineLent, ImagesLent, Parted, Breaks, FirstBroken, Alike, Only, Every, Seen, FirstsSeen, Renamed, row_at, Sifted, LineParted, LineSplit};

use equivalence::checks::MAX_SIZE;
use lattice::meets::{NAME_PAIRS, NONE};

// Where a line begins, and how far its cells are apart.
#[derive(Clone, Copy)]
pub struct Line {
    pub base: usize,
    pub stride: usize,
}

// What stays in a round of the walk: how many elements there are, the cells of all tables, the elements in use, and whether it is a later round than
// the first.
#[derive(Clone, Copy)]
pub struct Round<'a> {
    pub n: usize,
    pub cells: &'a [u8],
    pub live: &'a [u8],
    pub again: bool,
}

// Whether the line takes x to another block than the smallest member of its block.
fn breaks(m: &[u8], round: &Round, line: Line, x: usize) -> bool
    requires { ImagesLent round.now.n m.now round.now.cells.now line.base line.stride x }
    ensures { Parted (byte m.now (line_at round.now.cells.now line.base line.stride x)) (byte m.now (line_at round.now.cells.now line.base line.stride (byte m.now x))) result }
{
    let first = m[x] as usize;
    let image = round.cells[line.base + x * line.stride] as usize;
    let expected = round.cells[line.base + first * line.stride] as usize;
    m[image] != m[expected]
}

// The first index from `start` on of an element whose image is in another block than the image of its block's smallest member.
fn broken_from(m: &[u8], round: &Round, line: Line, list: &[u8], start: usize) -> Option<usize>
    requires map_lent { MapLent round.now.n m.now round.now.cells.now }
    requires line_inside { LineInside round.now.n round.now.cells.now line.base line.stride }
    requires elements { Elements round.now.n list.now (length list.now) }
    requires start_in_bounds { start ≤ length list.now }
    ensures { FirstBroken (line_at round.now.cells.now line.base line.stride) (byte m.now) list.now (length list.now) start result }
{
    for i in start..list.len() {
        let x = list[i] as usize;
        if breaks(m, round, line, x) {
            return Some(i);
        }
    }
    None
}

// The one seen, or x where none was.
fn first_seen(seen: u8, x: usize) -> u8
    requires { x < 64 }
    ensures { result ≡ seen_or seen x }
{
    if seen < NONE { seen } else { x as u8 }
}

// The first element of the block of x whose image is in one block with the image of x. Row `row` of 64 bytes has those below x, by the image's block; then x too.
fn first_alike(m: &[u8], round: &Round, line: Line, seen: &mut [u8], row: usize, x: usize) -> u8
    requires { Seen round.now.n m.now round.now.cells.now line.base line.stride row x seen.old }
    ensures { Renamed (line_at round.now.cells.now line.base line.stride) (byte m.now) row x seen.old seen.new result }
{
    let v = round.cells[line.base + x * line.stride] as usize;
    let place = row * MAX_SIZE + m[v] as usize;
    let first = first_seen(seen[place], x);
    seen[place] = first;
    first
}

// The new name of x, once those below x are named: the same where x is in the block called `name`, and else the name that it has.
fn renamed(m: &[u8], round: &Round, line: Line, seen: &mut [u8], name: u8, x: usize) -> u8
    requires line_lent { LineLent round.now.n m.now round.now.cells.now line.base line.stride }
    requires x_lt_n { x < round.now.n }
    requires in_bounds { 64 ≤ length seen.old }
    requires firsts_seen { FirstsSeen (line_at round.now.cells.now line.base line.stride) (byte m.now) name x (row_at seen.old 0) }
    ensures alike { Alike (line_at round.now.cells.now line.base line.stride) (byte m.now) (Only name) x result }
    ensures firsts_seen_2 { FirstsSeen (line_at round.now.cells.now line.base line.stride) (byte m.now) name (x + 1) (row_at seen.new 0) }
{
    if m[x] != name {
        return m[x];
    }
    first_alike(m, round, line, seen, 0, x)
}

// Names every element anew where the block called `name` is split. Nothing is seen of it yet.
fn rename_block(m: &[u8], next: &mut [u8], round: &Round, line: Line, seen: &mut [u8], name: u8)
    requires line_lent { LineLent round.now.n m.now round.now.cells.now line.base line.stride }
    requires n_in_bounds { round.now.n ≤ length next.old }
    requires in_bounds { 64 ≤ length seen.old }
    requires by_index { (v : ℕ) → v < 64 → row_at seen.old 0 v ≡ 64 }
    ensures { (x : ℕ) → x < round.now.n → Alike (line_at round.now.cells.now line.base line.stride) (byte m.now) (Only name) x (byte next.new x) }
{
    for x in 0..round.n {
        next[x] = renamed(m, round, line, seen, name, x);
    }
}

// Names every element anew where all blocks are split. Nothing is seen of them yet.
fn rename_all(m: &[u8], next: &mut [u8], round: &Round, line: Line, seen: &mut [u8])
    requires line_lent { LineLent round.now.n m.now round.now.cells.now line.base line.stride }
    requires n_in_bounds { round.now.n ≤ length next.old }
    requires in_bounds { 4096 ≤ length seen.old }
    requires by_index { (v : ℕ) → v < 4096 → byte seen.old v ≡ 64 }
    ensures { (x : ℕ) → x < round.now.n → Alike (line_at round.now.cells.now line.base line.stride) (byte m.now) Every x (byte next.new x) }
{
    for x in 0..round.n {
        next[x] = first_alike(m, round, line, seen, m[x] as usize, x);
    }
}

// Splits the block called `name` along the line.
fn split_block(m: &mut [u8], round: &Round, line: Line, name: u8)
    requires { LineLent round.now.n m.old round.now.cells.now line.base line.stride }
    ensures by_index { (x : ℕ) → x < round.now.n → Alike (line_at round.now.cells.now line.base line.stride) (byte m.old) (Only name) x (byte m.new x) }
    ensures kept_past { KeptPast round.now.n (byte m.old) (byte m.new) }
{
    let mut next = [0u8; 64];
    let mut seen = [NONE; 64];
    rename_block(m, &mut next, round, line, &mut seen, name);
    m[..round.n].copy_from_slice(&next[..round.n]);
}

// Splits all blocks along the line.
fn split_blocks(m: &mut [u8], round: &Round, line: Line)
    requires { LineLent round.now.n m.old round.now.cells.now line.base line.stride }
    ensures by_index { (x : ℕ) → x < round.now.n → Alike (line_at round.now.cells.now line.base line.stride) (byte m.old) Every x (byte m.new x) }
    ensures kept_past { KeptPast round.now.n (byte m.old) (byte m.new) }
{
    let mut parts = [0u8; 64];
    let mut seen = [NONE; NAME_PAIRS];
    rename_all(m, &mut parts, round, line, &mut seen);
    m[..round.n].copy_from_slice(&parts[..round.n]);
}

// Splits along a line that breaks at x: in the first round all blocks, since most are broken, later the block of x.
pub fn split_at(m: &mut [u8], round: &Round, line: Line, x: usize)
    requires line_lent { LineLent round.now.n m.old round.now.cells.now line.base line.stride }
    requires x_lt_n { x < round.now.n }
    requires breaks { Breaks (line_at round.now.cells.now line.base line.stride) (byte m.old) x }
    ensures { LineParted round.now.n round.now.cells.now line.base line.stride m.old m.new }
{
    if round.again {
        let name = m[x];
        split_block(m, round, line, name);
        return;
    }
    split_blocks(m, round, line);
}

// Splits along a line that breaks at the element at `start` of a list, and in later rounds wherever it still breaks behind that.
fn split_along(m: &mut [u8], round: &Round, line: Line, list: &[u8], start: usize)
    requires line_lent { LineLent round.now.n m.old round.now.cells.now line.base line.stride }
    requires elements { Elements round.now.n list.now (length list.now) }
    requires start_in_bounds { start < length list.now }
    requires breaks { Breaks (line_at round.now.cells.now line.base line.stride) (byte m.old) (byte list.now start) }
    ensures { LineParted round.now.n round.now.cells.now line.base line.stride m.old m.new }
{
    // No `for`: the index jumps to where the line breaks next.
    let mut k = start;
    loop {
        let x = list[k] as usize;
        split_at(m, round, line, x);
        if !round.again {
            return;
        }
        match broken_from(m, round, line, list, k + 1) {
            Some(next) => k = next,
            None => return,
        }
    }
}

// Keeps those of a list in front that are no smallest members. How many there are.
pub fn sift(m: &[u8], list: &mut [u8]) -> usize
    requires { Elements (length m.now) list.old (length list.old) }
    ensures { Sifted (byte m.now) list.old (length list.old) list.new result }
{
    // By index: what is kept is written in front of what is looked at.
    let mut kept = 0;
    for i in 0..list.len() {
        let x = list[i];
        list[kept] = x;
        kept += usize::from(m[x as usize] != x);
    }
    kept
}

// Splits m along the line where that does not keep it, as far as the elements of a list tell; of these, those are kept in front that are no
// smallest members then. How many there are. Most lines keep m, and a call for each would show.
#[inline(always)]
pub fn split_line(m: &mut [u8], round: &Round, line: Line, list: &mut [u8]) -> usize
    requires line_lent { LineLent round.now.n m.old round.now.cells.now line.base line.stride }
    requires elements { Elements round.now.n list.old (length list.old) }
    ensures { LineSplit round.now.n round.now.cells.now line.base line.stride m.old m.new list.old (length list.old) list.new result }
{
    let Some(k) = broken_from(m, round, line, list, 0) else {
        return list.len();
    };
    split_along(m, round, line, list, k);
    sift(m, list)
}
