// Writing numbers, words and brackets of bracket text into a lent buffer: each writer begins at a place and gives the place after what it wrote.
#![tactic(auto)]

ghost use Rattle.std.specs.Prelude.{[], ◌∷◌, ◌+◌, ◌*◌, ◌≤◌, ◌<◌, length};
ghost use Rattle.writer.specs.Numerals.{decimal};
ghost use Rattle.numberreader.specs.Reading.{ascii};
ghost use Rattle.writer.specs.Lines.{gap_bytes, spaced, bracketed};
ghost use Rattle.tablereader.specs.Laying.{Laid};
ghost use Rattle.writer.specs.InnerRoom.{LaidOpen, DigitTable, NumbersBelow};

use algebra::largest;

mod short;

// One byte.
pub fn write_byte(b: u8, out: &mut [u8], put: usize) -> usize
    requires { put < length out.old }
    ensures { Laid out.old put (b ∷ []) out.new result }
{
    out[put] = b;
    put + 1
}

// The bytes of a word.
pub fn write_word(word: &[u8], out: &mut [u8], put: usize) -> usize
    requires { put + length word.now ≤ length out.old }
    ensures { Laid out.old put word.now out.new result }
{
    let end = put + word.len();
    out[put..end].copy_from_slice(word);
    end
}

// A number in base ten. No Display: it goes into lent bytes, and there is no heap.
pub fn write_number(v: u8, out: &mut [u8], put: usize) -> usize
    requires { put + 3 ≤ length out.old }
    ensures laid { Laid out.old put (decimal v) out.new result }
    ensures short { result ≤ put + 3 }
{
    if v < 10 {
        return write_byte(48 + v, out, put);
    }
    if v < 100 {
        let tens = write_byte(48 + v / 10, out, put);
        return write_byte(48 + v % 10, out, tens);
    }
    let hundreds = write_byte(48 + v / 100, out, put);
    let tens = write_byte(48 + v / 10 % 10, out, hundreds);
    write_byte(48 + v % 10, out, tens)
}

// What stands between two items.
pub fn write_gap(out: &mut [u8], put: usize) -> usize
    requires { put < length out.old }
    ensures laid { Laid out.old put gap_bytes out.new result }
    ensures short { result ≤ put + 1 }
{
    write_byte(b' ', out, put)
}

// A number after a gap.
pub fn write_spaced_number(v: u8, out: &mut [u8], put: usize) -> usize
    requires { put + 4 ≤ length out.old }
    ensures laid { Laid out.old put (spaced (v ∷ [])) out.new result }
    ensures short { result ≤ put + 4 }
{
    let after = write_gap(out, put);
    write_number(v, out, after)
}

// A number below 64 after a gap, without a branch on its digits: where it has one digit, a byte too many is written, which stands open behind it. Both bytes are
// read before the first is written, so that they can be moved at once.
fn write_small(v: u8, digits: &[u8], out: &mut [u8], put: usize) -> usize
    requires v_bound { (v < 64) × (put + 4 ≤ length out.old) }
    requires digit_table { DigitTable digits.now }
    ensures laid_open { LaidOpen out.old put (spaced (v ∷ [])) out.new result }
    ensures short { result ≤ put + 4 }
{
    let i = 2 * v as usize;
    let leading = digits[i];
    let last = digits[i + 1];
    let first = write_gap(out, put);
    let second = write_byte(leading, out, first);
    write_byte(last, out, second);
    if v < 10 {
        return put + 2;
    }
    put + 3
}

// Numbers below 64, each after a space, with an open byte behind them. The table is lent, so that it is laid out once and not for each number.
fn write_by_table(m: &[u8], digits: &[u8], out: &mut [u8], put: usize) -> usize
    requires m_in_bounds { put + length (spaced m.now) + 2 ≤ length out.old }
    requires numbers_below { NumbersBelow 64 m.now }
    requires digit_table { DigitTable digits.now }
    ensures laid_open { LaidOpen out.old put (spaced m.now) out.new result }
    ensures short { result ≤ put + 4 * length m.now }
{
    let mut at = put;
    for v in m {
        at = write_small(*v, digits, out, at);
    }
    at
}

// The same, by a table that is laid out here.
fn write_mixed(m: &[u8], out: &mut [u8], put: usize) -> usize
    requires m_in_bounds { put + length (spaced m.now) + 2 ≤ length out.old }
    requires numbers_below { NumbersBelow 64 m.now }
    ensures laid_open { LaidOpen out.old put (spaced m.now) out.new result }
    ensures short { result ≤ put + 4 * length m.now }
{
    let digits =
        b"0 1 2 3 4 5 6 7 8 9 101112131415161718192021222324252627282930313233343536373839404142434445464748495051525354555657585960616263";
    write_by_table(m, digits, out, put)
}

// Numbers, each after a space.
fn write_numbers(m: &[u8], out: &mut [u8], put: usize) -> usize
    requires { put + length (spaced m.now) + 2 ≤ length out.old }
    ensures laid_open { LaidOpen out.old put (spaced m.now) out.new result }
    ensures short { result ≤ put + 4 * length m.now }
{
    let mut at = put;
    for v in m {
        at = write_spaced_number(*v, out, at);
    }
    at
}

// Numbers, none above top, each after a space, with an open byte behind them: the caller writes there next. Which way fits is asked once, and not for each number.
pub fn write_spaced(top: u8, m: &[u8], out: &mut [u8], put: usize) -> usize
    requires m_in_bounds { put + length (spaced m.now) + 2 ≤ length out.old }
    requires numbers_below { NumbersBelow (top + 1) m.now }
    ensures laid_open { LaidOpen out.old put (spaced m.now) out.new result }
    ensures short { result ≤ put + 4 * length m.now }
{
    if top < 10 {
        return short::write_digits(m, out, put);
    }
    if top < 64 {
        return write_mixed(m, out, put);
    }
    write_numbers(m, out, put)
}

// A row of numbers, none above top: in a bracket, parted by one space. The bracket opens where the gap before the first number stood.
pub fn write_row(top: u8, m: &[u8], out: &mut [u8], put: usize) -> usize
    requires m_nonzero { (0 < length m.now) × (put + length (bracketed m.now) + 1 ≤ length out.old) }
    requires numbers_below { NumbersBelow (top + 1) m.now }
    ensures laid { Laid out.old put (bracketed m.now) out.new result }
    ensures short { result ≤ put + 4 * length m.now + 1 }
{
    let end = write_spaced(top, m, out, put);
    let after = write_byte(b']', out, end);
    write_byte(b'[', out, put);
    after
}

// Numbers in a bracket, parted by one space.
pub fn write_bracketed(m: &[u8], out: &mut [u8], put: usize) -> usize
    requires { (0 < length m.now) × (put + length (bracketed m.now) + 1 ≤ length out.old) }
    ensures laid { Laid out.old put (bracketed m.now) out.new result }
    ensures short { result ≤ put + 4 * length m.now + 1 }
{
    let top = largest(m);
    write_row(top, m, out, put)
}

// The end of a line.
pub fn write_close(out: &mut [u8], put: usize) -> usize
    requires { put + 2 ≤ length out.old }
    ensures { Laid out.old put (ascii "]\n") out.new result }
{
    write_word(b"]\n", out, put)
}
