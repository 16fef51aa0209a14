// What the programs of cases share: the parts of a line that shows a call. Each function says how many of the bytes that it was given were printed.
#![tactic(auto)]

ghost use Rattle.std.specs.Prelude.{◌+◌, ◌≤◌, length};

// The bytes on standard output, each after a space, until a write fails.
pub fn print_bytes(bytes: &[u8]) -> usize
    ensures { result ≤ length bytes.now }
{
    for (i, byte) in bytes.iter().enumerate() {
        if !print_byte(*byte) {
            return i;
        }
    }
    bytes.len()
}

fn print_byte(byte: u8) -> bool {
    io::write_all(1, b" ") && io::print_decimal(1, byte as u64)
}

// What a line begins with: the call's name, n, and two lists of bytes, each after a bar.
pub fn print_call(name: &[u8], n: usize, first: &[u8], second: &[u8]) -> usize
    ensures { result ≤ length first.now + length second.now }
{
    io::write_all(1, name);
    io::write_all(1, b" ");
    io::print_decimal(1, n as u64);
    io::write_all(1, b" |");
    let before = print_bytes(first);
    io::write_all(1, b" |");
    before + print_bytes(second)
}

// A refusal, by the reason's number.
pub fn print_refused(number: u8) -> usize
    ensures { result ≤ 1 }
{
    io::write_all(1, b" refused");
    print_bytes(&[number])
}

// What a line ends with: the lent bytes after the call.
pub fn print_lent(lent: &[u8]) -> usize
    ensures { result ≤ length lent.now }
{
    io::write_all(1, b" :");
    let printed = print_bytes(lent);
    io::write_all(1, b"\n");
    printed
}
