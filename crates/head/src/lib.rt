// The answers of the writer and the reader of algebras as numbers, and the reader's as bytes: what the tests see of them.
#![tactic(auto)]

ghost use Rattle.std.specs.Prelude.{◌≡◌, IfOk, length};
ghost use Rattle.equivalence.specs.Refusal.{number_of};
ghost use Rattle.algebratext.specs.Bounds.{TextBounded, ReadBounded};
ghost use Rattle.head.specs.Head.{text_number, read_number, head_of};

use algebratext::AlgebraRead;
use equivalence::Refusal;
use writer::{write_byte, write_word};

// How many bytes a head has: the size, the number of operations, 16 arities.
pub const HEAD_LENGTH: usize = 18;

// A reason's number, with 64 bits.
fn wide_number(reason: Refusal) -> u64
    ensures { result ≡ number_of reason }
{
    u64::from(u8::from(reason))
}

// The writer's answer.
#[tactic(auto, unfolding(crate::specs::Head::text_number))]
pub fn text_number(answer: Result<usize, Refusal>) -> u64
    requires { TextBounded answer }
    ensures { result ≡ text_number answer }
{
    match answer {
        Ok(length) => 256 * (length as u64),
        Err(reason) => wide_number(reason),
    }
}

// The reader's answer.
#[tactic(auto, unfolding(crate::specs::Head::read_number))]
pub fn reader_number(answer: Result<AlgebraRead, Refusal>) -> u64
    requires { IfOk answer ReadBounded }
    ensures { result ≡ read_number answer }
{
    match answer {
        Ok(read) => 256 * (read.cells as u64),
        Err(reason) => wide_number(reason),
    }
}

// The head of the reader's answer.
pub fn write_head(answer: Result<AlgebraRead, Refusal>, head: &mut [u8])
    requires read_bounded { IfOk answer ReadBounded }
    requires head_len { length head.old ≡ 18 }
    ensures { head.new ≡ head_of answer }
{
    match answer {
        Ok(read) => {
            let second = write_byte(read.size, head, 0);
            let third = write_byte(read.operations as u8, head, second);
            write_word(&read.arities, head, third);
        }
        Err(_) => head.fill(0),
    }
}
