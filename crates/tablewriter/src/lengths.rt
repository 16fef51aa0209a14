// How long the text of an algebra is: brackets and gaps by the arities, digits by the cells.
ghost use Rattle.std.specs.Prelude.{◌≡◌, ◌+◌, ◌≤◌, ◌<◌, length};
ghost use Rattle.algebra.specs.Algebra.{algebra_in};
ghost use Rattle.writer.specs.Numerals.{decimal};
ghost use Rattle.writer.specs.InnerRoom.{NumbersBelow};
ghost use Rattle.tablewriter.specs.Texts.{algebra_text};
ghost use Rattle.tablewriter.specs.InnerLengths.{frame as frame_of, figures, Measurable};

// 1 for a number from 10 on, else 0.
fn second_digit(v: u8) -> u8
    requires { v < 100 }
    ensures { result + 1 ≡ length (decimal v) }
{
    u8::from(v >= 10)
}

// How many of a few numbers, all below 100, have two digits. They are read without an early exit and counted in a byte, so that the loop can take many at a time.
fn second_digits_of_few(m: &[u8]) -> u8
    requires numbers_below { NumbersBelow 100 m.now }
    requires m_len_bound { length m.now ≤ 128 }
    ensures { result + length m.now ≡ figures m.now }
{
    let mut count: u8 = 0;
    for v in m {
        count += second_digit(*v);
    }
    count
}

// How many of the numbers, all below 100, have two digits.
fn second_digits(m: &[u8]) -> u16
    requires numbers_below { NumbersBelow 100 m.now }
    requires m_len_bound { length m.now ≤ 32768 }
    ensures { result + length m.now ≡ figures m.now }
{
    let mut count: u16 = 0;
    for part in m.chunks(128) {
        count += u16::from(second_digits_of_few(part));
    }
    count
}

// The brackets and gaps of a table.
fn frame(n: usize, arity: u8) -> usize
    requires n_bound { n ≤ 64 }
    requires arity_bound { arity ≤ 3 }
    ensures { result ≡ frame_of n arity }
{
    let mut sum = 0;
    for _s in 0..arity {
        sum = n * sum + (n + 1);
    }
    sum
}

// How long the text of an algebra is.
pub fn text_length(n: usize, arities: &[u8], cells: &[u8]) -> usize
    requires { Measurable n arities.now cells.now }
    ensures { result ≡ length (algebra_text (algebra_in n arities.entry cells.entry)) }
{
    let mut sum = 9 + second_digit(n as u8) as usize + cells.len() + second_digits(cells) as usize;
    for arity in arities {
        sum = sum + 8 + frame(n, *arity);
    }
    sum
}
