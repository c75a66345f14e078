// 01, "The sum": Fletcher's two running bytes. Rust: parser/checksum.rs.
#![tactic(auto)]

ghost use Rattle.std.specs.Prelude.{◌≡◌};
ghost use Rattle.sum.specs.Sum.{sum_on, zeros, pair_of};

// a and b, both kept modulo 256.
#[derive(Clone, Copy, PartialEq, Eq)]
pub struct Sums {
    pub a: u8,
    pub b: u8,
}

// Both start at 0.
pub fn new() -> Sums
    ensures { result ≡ zeros }
{
    Sums { a: 0, b: 0 }
}

// The sums run on over the bytes, 32 and 32 and then the rest: a length that is written out spares the loop its tests.
pub fn update(from: Sums, bytes: &[u8]) -> Sums
    ensures { result ≡ sum_on from bytes.now }
{
    let mut sums = from;
    let mut rest = bytes;
    while let Some((block, behind)) = rest.split_first_chunk::<32>() {
        sums = run_over(sums, block);
        rest = behind;
    }
    run_over(sums, rest)
}

// Byte by byte: for each, a = a + byte and b = b + a.
#[tactic(auto, using(crate::proofs::Laws::sum_next, crate::proofs::Laws::sum_end))]
fn run_over(from: Sums, bytes: &[u8]) -> Sums
    ensures { result ≡ sum_on from bytes.now }
{
    let mut a = from.a;
    let mut b = from.b;
    for byte in bytes {
        a = a.wrapping_add(*byte);
        b = b.wrapping_add(a);
    }
    Sums { a, b }
}

// Two bytes as one number, low byte first: a pair of sums, or a frame's length.
pub fn word(low: u8, high: u8) -> u16
    ensures { result ≡ pair_of low high }
{
    u16::from_le_bytes([low, high])
}
