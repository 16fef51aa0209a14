// Meets of maps, written into lent slices. The maps are the first n bytes of what is handed in.
ghost use Rattle.std.specs.Prelude.{◌≡◌, ◌+◌, ◌<◌, ◌≤◌, length};
ghost use Rattle.equivalence.specs.Equivalence.{byte, meet};
ghost use Rattle.kernel.specs.InnerKernel.{Canonical, seen_or};
ghost use Rattle.lattice.specs.InnerMeeting.{Cleared, Begun, Entered};
ghost use Rattle.equivalence.specs.Lent.{written};

use equivalence::blocks;
use equivalence::checks::MAX_SIZE;

// No element: stands where a table keeps elements, which are below 64, and none was seen yet. A byte, since the table has to stay one of bytes:
// its memory is fixed, and a row is cleared by one fill.
pub const NONE: u8 = 64;

// How many pairs of names there are: the bytes of the table by which a meet is written, a row of 64 for each name.
pub const NAME_PAIRS: usize = MAX_SIZE * MAX_SIZE;

// The one seen, or x where none was.
#[tactic(auto, unfolding(kernel::specs::InnerKernel::seen_or))]
fn first_seen(seen: u8, x: usize) -> u8
    requires { x < 64 }
    ensures { result ≡ seen_or seen x }
{
    if seen < NONE { seen } else { x as u8 }
}

// The row that begins at byte `at` has seen nothing.
fn clear_row(at: usize, table: &mut [u8])
    requires { at + 64 ≤ length table.old }
    ensures { Cleared at 64 table.old table.new }
{
    table[at..at + MAX_SIZE].fill(NONE);
}

// Row x is cleared where x begins a block, which it does where it is its own name.
fn begin_row(x: usize, name: usize, table: &mut [u8])
    requires x_bound { x < 64 }
    requires in_bounds { 4096 ≤ length table.old }
    ensures { Begun x name table.old table.new }
{
    if name == x {
        clear_row(x * MAX_SIZE, table);
    }
}

// The first element with x's two names, p and q. `table` keeps these first ones: that of p and q at place p of row q, once q has begun its row.
pub fn first_alike(x: usize, p: u8, q: u8, table: &mut [u8]) -> u8
    requires x_bound { x < 64 }
    requires p_le_x { p ≤ x }
    requires q_le_x { q ≤ x }
    requires in_bounds { 4096 ≤ length table.old }
    ensures { Entered x p q table.old result table.new }
{
    let row = q as usize;
    begin_row(x, row, table);
    let place = row * MAX_SIZE + p as usize;
    let first = first_seen(table[place], x);
    table[place] = first;
    first
}

// m becomes its meet with b: each element is named by the first with its two names. `table` is working storage, with any content.
pub fn meet_with(n: usize, b: &[u8], table: &mut [u8], m: &mut [u8])
    requires n_bound { n ≤ 64 }
    requires n_in_bounds { n ≤ length b.now }
    requires in_bounds { 4096 ≤ length table.old }
    requires m_room { n ≤ length m.old }
    requires canonical { Canonical n (byte b.now) }
    requires canonical_2 { Canonical n (byte m.old) }
    ensures { m.new ≡ written (meet n m.old b.now) m.old }
{
    for x in 0..n {
        let first = first_alike(x, m[x], b[x], table);
        m[x] = first;
    }
}

// The meet of a and b goes to the first n bytes of out.
pub fn meet_into(n: usize, a: &[u8], b: &[u8], out: &mut [u8])
    requires n_bound { n ≤ 64 }
    requires n_in_bounds { n ≤ length a.now }
    requires n_in_bounds_2 { n ≤ length b.now }
    requires out_room { n ≤ length out.old }
    requires canonical { Canonical n (byte a.now) }
    requires canonical_2 { Canonical n (byte b.now) }
    ensures { out.new ≡ written (meet n a.now b.now) out.old }
{
    let mut table = [0u8; NAME_PAIRS];
    blocks::copy(n, a, out);
    meet_with(n, b, &mut table, out);
}
