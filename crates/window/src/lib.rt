// Looking at the window: what is left of the carry, then what is left of the chunk, read as one list. Rust: parser/buffer.rs,
// `DualBuffer`, and constants.rs.
#![tactic(auto)]

ghost use Rattle.std.specs.Prelude.{◌≡◌, ◌+◌, ◌-◌, ◌≤◌, ◌<◌, min, length, get_or, take, drop};
ghost use Rattle.std.specs.List.{list_any};
ghost use Rattle.sum.specs.Sum.{sum_of};
ghost use Rattle.parity.specs.Parity.{parity_of};
ghost use Rattle.window.specs.Sync.{has_parity, is_sync, first_sync, first};
ghost use Rattle.window.specs.EndMark.{end_mark};
ghost use Rattle.window.specs.Search.{is, syncs_of, told, PastNone, StopsBy};
ghost use Rattle.window.specs.Window.{bytes, width};

use sum::Sums;

pub const UBX_SYNC_CHAR_1: u8 = 0xB5;

pub const UBX_SYNC_CHAR_2: u8 = 0x62;

pub const RTCM_SYNC_CHAR: u8 = 0xD3;

pub const NMEA_SYNC_CHAR: u8 = 0x24;

const NMEA_END_CHAR_1: u8 = 0x0D;

const NMEA_END_CHAR_2: u8 = 0x0A;

// One: UBX. Two: UBX and RTCM. Three: UBX, RTCM and NMEA. With each the setting: whether an RTCM frame is read with its parity;
// without, as the crate reads it, it ends before.
#[derive(Clone, Copy)]
pub enum Mode {
    One(bool),
    Two(bool),
    Three(bool),
}

// What a search looks for: the sync bytes of a mode, or CR. It is no closure: against one that tests two or three bytes, a block's
// bytes are compared one by one, which takes more than ten times the instructions. A trait, with a type for each, is no plainer.
#[derive(Clone, Copy)]
enum Needle {
    Ubx,
    UbxRtcm,
    UbxRtcmNmea,
    Cr,
}

// What is left of the carry and of the chunk, lent. It is copied into each call: two slices, which stay in registers.
#[derive(Clone, Copy)]
pub struct Window<'a> {
    pub carry: &'a [u8],
    pub chunk: &'a [u8],
}

// Whether RTCM frames are read with parity.
pub fn has_parity(mode: Mode) -> bool
    ensures { result ≡ has_parity mode }
{
    match mode {
        Mode::One(parity) | Mode::Two(parity) | Mode::Three(parity) => parity,
    }
}

// The smaller of two numbers.
pub fn least(x: usize, y: usize) -> usize
    ensures { result ≡ min x y }
{
    x.min(y)
}

// Whether a byte is a sync byte of the mode.
pub fn is_sync(mode: Mode, x: u8) -> bool
    ensures { result ≡ is_sync mode x }
{
    x == UBX_SYNC_CHAR_1
        || match mode {
            Mode::One(_) => false,
            Mode::Two(_) => x == RTCM_SYNC_CHAR,
            Mode::Three(_) => matches!(x, RTCM_SYNC_CHAR | NMEA_SYNC_CHAR),
        }
}

// Whether x is among the bytes: no way out on the way, so that many are compared at a time. `contains` takes twice the instructions.
fn has(s: &[u8], x: u8) -> bool
    ensures { result ≡ list_any (is x) s.now }
{
    let mut hit = false;
    for y in s {
        hit |= *y == x;
    }
    hit
}

// The sync bytes of the mode, as what a search looks for.
fn syncs(mode: Mode) -> Needle
    ensures { result ≡ syncs_of mode }
{
    match mode {
        Mode::One(_) => Needle::Ubx,
        Mode::Two(_) => Needle::UbxRtcm,
        Mode::Three(_) => Needle::UbxRtcmNmea,
    }
}

// Whether a byte is one that is looked for.
fn tells(needle: Needle, x: u8) -> bool
    ensures { result ≡ told needle x }
{
    match needle {
        Needle::Ubx => x == UBX_SYNC_CHAR_1,
        Needle::UbxRtcm => matches!(x, UBX_SYNC_CHAR_1 | RTCM_SYNC_CHAR),
        Needle::UbxRtcmNmea => matches!(x, UBX_SYNC_CHAR_1 | RTCM_SYNC_CHAR | NMEA_SYNC_CHAR),
        Needle::Cr => x == NMEA_END_CHAR_1,
    }
}

// Whether a byte that is looked for is among the bytes.
#[tactic(auto, using(crate::proofs::Laws::any_two, crate::proofs::Laws::any_three))]
fn any(needle: Needle, s: &[u8]) -> bool
    ensures { result ≡ list_any (told needle) s.now }
{
    match needle {
        Needle::Ubx => has(s, UBX_SYNC_CHAR_1),
        Needle::UbxRtcm => has(s, UBX_SYNC_CHAR_1) || has(s, RTCM_SYNC_CHAR),
        Needle::UbxRtcmNmea => has(s, UBX_SYNC_CHAR_1)
            || has(s, RTCM_SYNC_CHAR)
            || has(s, NMEA_SYNC_CHAR),
        Needle::Cr => has(s, NMEA_END_CHAR_1),
    }
}

// Past whole blocks of 64 bytes, from the start, that have none of what is looked for. The size is written out, here and below, so
// that a block's bytes are compared many at a time. One function for both sizes, with N, takes some 5 instructions more a search.
fn past_64(needle: Needle, s: &[u8]) -> usize
    ensures { PastNone (told needle) s.now 0 result }
{
    let mut i = 0;
    for block in s.chunks_exact(64) {
        if any(needle, block) {
            break;
        }
        i += 64;
    }
    i
}

// From `from` on past blocks of 16 bytes that have none of what is looked for, up to the end of s: the last block ends there and
// may overlap the one before it, so that no byte is left behind the blocks. `chunks_exact` has no such block.
fn past_16(needle: Needle, s: &[u8], from: usize) -> usize
    requires { (from ≤ length s.now) × (16 ≤ length s.now) }
    ensures { PastNone (told needle) s.now from result }
{
    let last = s.len() - 16;
    let mut i = from;
    while i < s.len() {
        let j = i.min(last);
        let e = j + 16;
        if any(needle, &s[j..e]) {
            break;
        }
        i = e;
    }
    i
}

// From `from` on past bytes that are not looked for, byte by byte, up to `to`. `position` takes up to 5 instructions more.
#[tactic(auto, using(crate::proofs::Laws::first_here))]
fn past_bytes(needle: Needle, s: &[u8], from: usize, to: usize) -> usize
    requires { (from ≤ to) × (to ≤ length s.now) }
    ensures { StopsBy (told needle) s.now from to result }
{
    for i in from..to {
        if tells(needle, s[i]) {
            return i;
        }
    }
    to
}

// The place of the first byte of s that is looked for, or its length. Few bytes are looked at one by one. Of more, the blocks that have
// none are passed; in the first block five bytes are looked at by themselves, since what is looked for is often near: behind the three
// bytes of a parity, or the four that are left of a false head.
#[tactic(auto, using(crate::proofs::Laws::first_end))]
fn find_in(needle: Needle, s: &[u8]) -> usize
    ensures { result ≡ first (told needle) s.now }
{
    let len = s.len();
    if len < 16 {
        return past_bytes(needle, s, 0, len);
    }
    let far = past_64(needle, s);
    if far == 0 {
        let near = past_bytes(needle, s, 0, 5);
        if near < 5 {
            return near;
        }
    }
    if far == len {
        return len;
    }
    let late = past_16(needle, s, far);
    past_bytes(needle, s, late, len)
}

// The place of the first sync byte of s, or its length where there is none.
#[tactic(auto, using(crate::proofs::Laws::told_syncs, crate::proofs::Laws::first_le))]
pub fn sync_in(mode: Mode, s: &[u8]) -> usize
    ensures value { result ≡ first_sync mode s.now }
    ensures upper_bound { result ≤ length s.now }
{
    find_in(syncs(mode), s)
}

impl<'a> Window<'a> {
    // How many bytes the window has.
    pub fn len(self) -> usize
        ensures { result ≡ width self.entry }
    {
        self.carry.len() + self.chunk.len()
    }

    // The byte at i.
    #[tactic(auto, using(crate::proofs::Laws::joined_left, crate::proofs::Laws::joined_right))]
    pub fn byte_at(self, i: usize) -> u8
        requires { i < width self }
        ensures { result ≡ get_or (bytes self.entry) i 0 }
    {
        let left = self.carry.len();
        if i < left {
            self.carry[i]
        } else {
            self.chunk[i - left]
        }
    }

    // What is left behind the first k bytes. That k lies within the window is each search's own to ask: it is no window's fact.
    #[tactic(auto, using(crate::proofs::Laws::from, crate::proofs::Laws::drop_two))]
    pub fn rest(self, k: usize) -> Window<'a>
        requires { k ≤ width self }
        ensures value { bytes result ≡ drop k (bytes self.entry) }
        ensures carry_length { length result.carry.now ≡ length self.entry.carry.now - k }
    {
        let i = k.min(self.carry.len());
        let j = k - i;
        Window {
            carry: &self.carry[i..],
            chunk: &self.chunk[j..],
        }
    }

    // The place of the first byte from k on that is looked for, or the window's length where there is none.
    #[tactic(auto, using(crate::proofs::Laws::in_two))]
    fn find(self, needle: Needle, k: usize) -> usize
        requires { k ≤ width self }
        ensures value { result ≡ k + first (told needle) (drop k (bytes self.entry)) }
        ensures upper_bound { result ≤ width self.entry }
    {
        let left = self.carry.len();
        if k < left {
            let i = k + find_in(needle, &self.carry[k..]);
            if i < left {
                return i;
            }
            return left + find_in(needle, self.chunk);
        }
        let j = k - left;
        k + find_in(needle, &self.chunk[j..])
    }

    // The place of the first sync byte from k on, or the window's length where there is none.
    #[tactic(auto, using(crate::proofs::Laws::told_syncs))]
    pub fn find_sync(self, mode: Mode, k: usize) -> usize
        requires { k ≤ width self }
        ensures value { result ≡ k + first_sync mode (drop k (bytes self.entry)) }
        ensures upper_bound { result ≤ width self.entry }
    {
        self.find(syncs(mode), k)
    }

    // The sum of the bytes from `from` up to, not including, `to`: it runs over the carry's part, then on over the chunk's.
    pub fn sum_of(self, from: usize, to: usize) -> Sums
        requires { (from ≤ to) × (to ≤ width self) }
        ensures { result ≡ sum_of (take (to - from) (drop from (bytes self.entry))) }
    {
        let left = self.carry.len();
        let f = from.min(left);
        let t = to.min(left);
        let first = sum::update(sum::new(), &self.carry[f..t]);
        let start = from - f;
        let end = to - t;
        sum::update(first, &self.chunk[start..end])
    }

    // The parity of the bytes up to, not including, `to`, in the same manner.
    pub fn parity_of(self, to: usize) -> u32
        requires { to ≤ width self }
        ensures { result ≡ parity_of (take to (bytes self.entry)) }
    {
        let t = to.min(self.carry.len());
        let first = parity::update(parity::new(), &self.carry[..t]);
        let end = to - t;
        parity::update(first, &self.chunk[..end])
    }

    // The first CR that is followed at once by LF. It leaps from CR to CR, and leaves by break, as 01 names the form.
    pub fn find_end(self) -> Option<usize>
        ensures { result ≡ end_mark 0 (bytes self.entry) }
    {
        let w = self.len();
        let mut i = self.find(Needle::Cr, 0);
        loop {
            if w <= i + 1 {
                break None;
            }
            if self.byte_at(i + 1) == NMEA_END_CHAR_2 {
                break Some(i);
            }
            i = self.find(Needle::Cr, i + 1);
        }
    }
}
