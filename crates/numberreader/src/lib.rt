// Reading bracket text by places: bytes, words, gaps and numbers. Past the end of a text every byte counts as 0, which no form has.
#![tactic(auto)]

ghost use Rattle.std.specs.Prelude.{◌≡◌, ◌+◌, ◌≤◌, length};
ghost use Rattle.numberreader.specs.Reading.{byte_at, begins};
ghost use Rattle.numberreader.specs.Numbers.{number};
ghost use Rattle.numberreader.specs.InnerPromises.{is_digit, GapRead, NumberRead};

// The largest number in a text.
const MAX_NUMBER: u16 = 255;

// A number that was read, and the place after it.
#[derive(Clone, Copy, Debug, PartialEq, Eq)]
pub struct Number {
    pub value: u8,
    pub next: usize,
}

// The byte at a place, or 0 past the end.
pub fn byte_at(text: &[u8], at: usize) -> u8
    ensures { result ≡ byte_at text.now at }
{
    text.get(at).copied().unwrap_or(0)
}

// Whether a byte is a digit.
pub fn is_digit(b: u8) -> bool
    ensures { result ≡ is_digit b }
{
    b.is_ascii_digit()
}

// Whether the bytes of a word stand from a place on.
pub fn begins_with(text: &[u8], at: usize, word: &[u8]) -> bool
    requires { at ≤ length text.now }
    ensures { result ≡ begins text.now at word.now }
{
    for (i, b) in word.iter().enumerate() {
        if byte_at(text, at + i) != *b {
            return false;
        }
    }
    true
}

// The place behind what stands between two items, if such a thing stands here.
pub fn gap_end(text: &[u8], at: usize) -> Option<usize>
    requires { at ≤ length text.now }
    ensures { GapRead text.now at result }
{
    if byte_at(text, at) != b' ' {
        return None;
    }
    Some(at + 1)
}

// A number from 0 to 255 without leading zeros, if one stands here.
pub fn read_number(text: &[u8], at: usize) -> Option<Number>
    requires { at ≤ length text.now }
    ensures { NumberRead text.now at (number text.now at) result }
{
    let a = byte_at(text, at);
    if !is_digit(a) {
        return None;
    }
    let b = byte_at(text, at + 1);
    if !is_digit(b) {
        return Some(Number {
            value: a - b'0',
            next: at + 1,
        });
    }
    if a == b'0' {
        return Some(Number {
            value: 0,
            next: at + 1,
        });
    }
    let c = byte_at(text, at + 2);
    let two = 10 * (a - b'0') + (b - b'0');
    if !is_digit(c) {
        return Some(Number {
            value: two,
            next: at + 2,
        });
    }
    let three = 10 * u16::from(two) + u16::from(c - b'0');
    if MAX_NUMBER < three {
        return None;
    }
    Some(Number {
        value: three as u8,
        next: at + 3,
    })
}
