// The lent carry's two writes. C lends it whole, with how many of its bytes are live beside it. Rust: parser/buffer.rs,
// `FixedLinearBuffer`; its `clear` is `drain` with nothing left.
#![tactic(auto)]

ghost use Rattle.std.specs.Prelude.{◌≡◌, ◌+◌, ◌-◌, ◌≤◌, length, take, drop};
ghost use Rattle.std.proofs.Math.Seq.{paste};
ghost use Rattle.carry.specs.Carry.{drain_carry};

// How many bytes a block has. A block is read whole before any of it is written, so that the compiler moves it at once.
const BLOCK: usize = 32;

// Drains the carry by k, and answers how many bytes are then live: byte i becomes old byte k + i for i < live - k, and all
// other bytes stay. Where k is 0, or all of live, no byte is written.
#[tactic(auto, using(crate::proofs::Laws::drain_all, crate::proofs::Laws::drain_ends))]
pub fn drain(carry: &mut [u8], live: usize, k: usize) -> usize
    requires { live ≤ length carry.old }
    ensures value { result ≡ live - k }
    ensures carry_after { carry.new ≡ drain_carry k live carry.old }
{
    if live <= k {
        return 0;
    }
    if k == 0 {
        return live;
    }
    carry.copy_within(k..live, 0);
    live - k
}

// Copies the first n bytes of `from` behind the first `live` bytes; all other bytes stay. Answers how many are then live.
// Where n is a block or more, it copies block by block.
// A copy_from_slice of all n bytes would call C's memmove, with 51 instructions for 64 bytes; the blocks take 37.
pub fn extend(carry: &mut [u8], live: usize, from: &[u8], n: usize) -> usize
    requires { (live + n ≤ length carry.old) × (n ≤ length from.now) }
    ensures value { result ≡ live + n }
    ensures carry_after { carry.new ≡ paste carry.old live from.now n }
{
    if n < BLOCK {
        extend_by_bytes(carry, live, from, n);
    } else {
        extend_by_blocks(carry, live, from, n);
    }
    live + n
}

// The copy of `extend`, byte by byte. The two copies ask what `extend` asks, and have no caller but it.
#[tactic(auto, using(crate::proofs::Laws::copy_goes_on))]
fn extend_by_bytes(carry: &mut [u8], live: usize, from: &[u8], n: usize)
    requires { (live + n ≤ length carry.old) × (n ≤ length from.now) }
    ensures { carry.new ≡ paste carry.old live from.now n }
{
    for (i, byte) in from[..n].iter().enumerate() {
        carry[live + i] = *byte;
    }
}

// The copy of `extend` block by block, for n of a block or more: the last block ends at n, and may copy again bytes that
// the one before it has copied.
// A for over (0..n).step_by(BLOCK) is unrolled by the compiler: 46 instructions for 64 bytes, where this takes 37.
fn extend_by_blocks(carry: &mut [u8], live: usize, from: &[u8], n: usize)
    requires { (live + n ≤ length carry.old) × ((n ≤ length from.now) × (32 ≤ n)) }
    ensures { carry.new ≡ paste carry.old live from.now n }
{
    let last = n - BLOCK;
    let mut copied = 0;
    while copied < n {
        let start = copied.min(last);
        put_block(carry, live + start, block_at(from, start));
        copied = start + BLOCK;
    }
}

// Answers the block of `from` that starts at i.
fn block_at(from: &[u8], i: usize) -> [u8; BLOCK]
    requires { i + 32 ≤ length from.now }
    ensures { result ≡ take 32 (drop i from.now) }
{
    *from[i..i + BLOCK].as_array().unwrap()
}

// Writes the block to the carry from byte `at` on; all other bytes stay.
// A copy_from_slice of the block tests for overlap in each turn of extend_by_blocks, and keeps extend from being inlined.
#[tactic(auto, using(crate::proofs::Laws::byte_goes_on))]
fn put_block(carry: &mut [u8], at: usize, block: [u8; BLOCK])
    requires { at + 32 ≤ length carry.old }
    ensures { carry.new ≡ paste carry.old at block 32 }
{
    for (j, byte) in block.iter().enumerate() {
        carry[at + j] = *byte;
    }
}
