// Whether bytes are a map, by sums: no loop has a branch, so that the compiler takes many bytes at once. A bench has up to 72 maps, which each call
// tests.
ghost use Rattle.std.specs.Prelude.{◌≡◌, ℕ, ◌<◌, ◌≤◌, ltb, length};
ghost use Rattle.kernel.specs.InnerKernel.{bit};
ghost use Rattle.equivalence.specs.Equivalence.{byte, is_map};
ghost use Rattle.sheet.specs.InnerSums.{sum, exceeding};

// How many bytes are above their own index.
fn count_above(m: &[u8]) -> u8
    requires { length m.now ≤ 64 }
    ensures { result ≡ sum (length m.now) (exceeding (byte m.now)) }
{
    let mut count = 0;
    for (x, &byte) in m.iter().enumerate() {
        count += u8::from((x as u8) < byte);
    }
    count
}

// The sum of the bytes.
fn sum_bytes(m: &[u8]) -> u32
    requires { length m.now ≤ 64 }
    ensures { result ≡ sum (length m.now) (byte m.now) }
{
    let mut total = 0;
    for &byte in m {
        total += u32::from(byte);
    }
    total
}

// The sum of the bytes of the elements that the bytes name.
fn sum_named(m: &[u8]) -> u32
    requires bound { length m.now ≤ 64 }
    requires by_index { (x : ℕ) → x < length m.now → byte m.now x ≤ x }
    ensures { result ≡ sum (length m.now) (λ x. byte m.now (byte m.now x)) }
{
    let mut total = 0;
    for &name in m {
        total += u32::from(m[name as usize]);
    }
    total
}

// Whether m is a map over as many elements as it has bytes. Where no byte is above its index, the byte of each name is at most the name, and so the sums are equal only
// where each is the name.
pub fn is_map(m: &[u8]) -> bool
    requires { length m.now ≤ 64 }
    ensures { result ≡ is_map (length m.now) m.now }
{
    if count_above(m) != 0 {
        return false;
    }
    sum_named(m) == sum_bytes(m)
}
