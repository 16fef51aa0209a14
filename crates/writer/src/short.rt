// Rows of numbers below 10: a gap and a digit each, so that many of them can be written at a time.
ghost use Rattle.std.specs.Prelude.{[], ◌∷◌, ◌+◌, ◌*◌, ◌≤◌, ◌<◌, length};
ghost use Rattle.tablereader.specs.Laying.{Laid};
ghost use Rattle.writer.specs.Lines.{spaced};
ghost use Rattle.writer.specs.InnerRoom.{LaidOpen, NumbersBelow};

use crate::{write_byte, write_gap};

// A number below 10 after a gap.
fn write_digit(v: u8, out: &mut [u8], put: usize) -> usize
    requires { (v < 10) × (put + 4 ≤ length out.old) }
    ensures laid { Laid out.old put (spaced (v ∷ [])) out.new result }
    ensures short { result ≤ put + 4 }
{
    let digit = write_gap(out, put);
    write_byte(48 + v, out, digit)
}

// Numbers below 10, each after a space.
pub fn write_digits(m: &[u8], out: &mut [u8], put: usize) -> usize
    requires m_in_bounds { put + length (spaced m.now) + 2 ≤ length out.old }
    requires numbers_below { NumbersBelow 10 m.now }
    ensures laid_open { LaidOpen out.old put (spaced m.now) out.new result }
    ensures short { result ≤ put + 4 * length m.now }
{
    let mut at = put;
    for v in m {
        at = write_digit(*v, out, at);
    }
    at
}
