// 02, Ticket 4: the parity of an RTCM frame, CRC-24Q, one entry of the table to a byte.
#![tactic(auto)]

mod table;

ghost use Rattle.std.specs.Prelude.{◌≡◌};
ghost use Rattle.parity.specs.Parity.{start, parity_on, remainders, word_of};

use table::TABLE;

// It starts at 0.
pub fn new() -> u32
    ensures { result ≡ start }
{
    0
}

// The parity runs on over the bytes. Of `from` the low 24 bits count. For no bytes the table is not set up.
#[tactic(auto, using(crate::proofs::Laws::on_none))]
pub fn update(from: u32, bytes: &[u8]) -> u32
    ensures { result ≡ parity_on from bytes.now }
{
    if bytes.is_empty() {
        return from & 0xFFFFFF;
    }
    run(&TABLE, from, bytes)
}

// The same with the table lent, so that it is set up once for many bytes.
fn run(table: &[u32; 256], from: u32, bytes: &[u8]) -> u32
    requires { table.now ≡ remainders }
    ensures { result ≡ parity_on from bytes.now }
{
    let mut crc = from & 0xFFFFFF;
    for byte in bytes {
        let top = ((crc >> 16) as u8) ^ *byte;
        crc = ((crc << 8) & 0xFFFFFF) ^ table[top as usize];
    }
    crc
}

// Three bytes as one number, high byte first: the parity as a frame has it.
pub fn word(a: u8, b: u8, c: u8) -> u32
    ensures { result ≡ word_of a b c }
{
    u32::from_be_bytes([0, a, b, c])
}
