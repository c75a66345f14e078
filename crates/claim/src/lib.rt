// A frame that a head claims: its length, the hand-out test, and what a step says of it by its sum or its parity. All of this goes
// by numbers; the window's bytes are read in `look`. Rust: parser/buffer.rs, `can_drain_and_take`; parser.rs, what
// `extract_packet_ubx`, `extract_packet_rtcm` and `extract_packet_nmea` answer.
#![tactic(auto)]

ghost use Rattle.std.specs.Prelude.{◌≡◌, ◌+◌, ◌*◌, ◌%◌, ◌≤◌, ◌<◌, ◌^◌, ltb};
ghost use Rattle.claim.specs.Sizes.{skip, around, size};
ghost use Rattle.claim.specs.Verdicts.{can_hand, cost, judge_sum, judge_parity, lacks};

use sum::Sums;

pub const UBX_SYNC_SIZE: usize = 2;

pub const UBX_HEADER_LEN: usize = 6;

pub const UBX_CHECKSUM_LEN: usize = 2;

pub const RTCM_HEADER_SIZE: usize = 3;

const RTCM_PARITY_LEN: usize = 3;

pub const NMEA_END_CHARS_LEN: usize = 2;

// What a UBX head says of its frame: class, id, and n, the payload's length. That n is below 65,536 is asked where it is needed and is no
// fact of the type: `judged` promises what it says of any n.
#[derive(Clone, Copy)]
pub struct UbxHead {
    pub class: u8,
    pub id: u8,
    pub n: usize,
}

// A frame that a head claims: UBX with class, id and n; RTCM with n, and whether it is read with parity; a sentence whose CR
// stands at i.
#[derive(Clone, Copy)]
pub enum Kind {
    Ubx { class: u8, id: u8, n: usize },
    Rtcm { n: usize, parity: bool },
    Sentence { i: usize },
}

// An answer that hands out no bytes.
#[derive(Clone, Copy)]
pub enum Tale {
    WrongSum {
        class: u8,
        id: u8,
        n: usize,
        expect: u16,
        got: u16,
    },
    WrongParity {
        expect: u32,
        got: u32,
    },
    NoRoom {
        drain: usize,
        size: usize,
    },
}

// What a step says: drain so many and need more; a tale; a frame to hand out.
#[derive(Clone, Copy)]
pub enum Verdict {
    Wait(usize),
    Tell(Tale),
    Hand(Kind),
}

// The bytes drained before a frame's body.
pub fn skip(kind: Kind) -> usize
    ensures { result ≡ skip kind }
{
    match kind {
        Kind::Ubx { .. } => UBX_HEADER_LEN,
        Kind::Rtcm { .. } => 0,
        Kind::Sentence { .. } => 0,
    }
}

// What an RTCM frame has around its message: the head before it and, where it is read with parity, that behind it.
pub fn around(parity: bool) -> usize
    ensures value { result ≡ around parity }
    ensures upper_bound { result ≤ 6 }
{
    if parity {
        return RTCM_HEADER_SIZE + RTCM_PARITY_LEN;
    }
    RTCM_HEADER_SIZE
}

// The length of its body: a UBX frame's is payload and check bytes, the others' the whole frame.
pub fn size(kind: Kind) -> usize
    requires { size kind < 2 ^ 64 }
    ensures { result ≡ size kind }
{
    match kind {
        Kind::Ubx { n, .. } => n + UBX_CHECKSUM_LEN,
        Kind::Rtcm { n, parity } => n + around(parity),
        Kind::Sentence { i } => i + NMEA_END_CHARS_LEN,
    }
}

// The bytes drained with an answer that hands out none.
pub fn cost(tale: Tale) -> usize
    ensures { result ≡ cost tale }
{
    match tale {
        Tale::WrongSum { .. } => UBX_SYNC_SIZE,
        Tale::WrongParity { .. } => 1,
        Tale::NoRoom { drain, .. } => drain,
    }
}

// The hand-out test: drain d, take t, where u of the window's w bytes lie in the carry.
pub fn can_hand(cap: usize, u: usize, w: usize, d: usize, t: usize) -> bool
    requires { d + t < 2 ^ 64 }
    ensures { result ≡ can_hand cap u w d t }
{
    d + t <= w && (u <= d || t <= u - d || t <= cap)
}

// A frame that can't be handed out: no room where the window is over C, else need more.
pub fn lacks(cap: usize, w: usize, drain: usize, size: usize) -> Verdict
    ensures { result ≡ lacks (ltb cap w) drain size }
{
    if cap < w {
        return Verdict::Tell(Tale::NoRoom { drain, size });
    }
    Verdict::Wait(0)
}

// What the received pair and the computed one say of the frame that a UBX head claims. A wrong sum is told with class, id and length
// of the head, the received pair, and the computed one.
#[tactic(auto, unfolding(window::specs::Pick::pick))]
pub fn judged(expect: Sums, got: Sums, head: UbxHead) -> Verdict
    ensures { result ≡ judge_sum expect.a expect.b got head.class head.id head.n }
{
    let UbxHead { class, id, n } = head;
    if expect == got {
        return Verdict::Hand(Kind::Ubx { class, id, n });
    }
    Verdict::Tell(Tale::WrongSum {
        class,
        id,
        n,
        expect: sum::word(expect.a, expect.b),
        got: sum::word(got.a, got.b),
    })
}

// What the received parity and the computed one say of an RTCM frame.
#[tactic(auto, unfolding(window::specs::Pick::pick))]
pub fn parity_judged(expect: u32, got: u32, n: usize) -> Verdict
    ensures { result ≡ judge_parity expect got n }
{
    if expect == got {
        return Verdict::Hand(Kind::Rtcm { n, parity: true });
    }
    Verdict::Tell(Tale::WrongParity { expect, got })
}

// An RTCM frame's length: the low 10 bits of its two bytes, big-endian.
pub fn rtcm_length(high: u8, low: u8) -> usize
    ensures { result ≡ (256 * high + low) % 1024 }
{
    (256 * usize::from(high) + usize::from(low)) % 1024
}
