// The loop that passes what is to be passed in silence, until something is to be said: it looks at the head on one side of the window
// where that tells, else at both sides; and what a head on one side claims, for a caller that tries it before the loop. Rust:
// parser.rs, the loops around the heads of the three iterators' `next`.
#![tactic(auto)]

ghost use Rattle.std.specs.Prelude.{◌≡◌, true, false, Some, List, ℕ, ◌+◌, ◌≤◌, ◌<◌, length, get_or, drop};
ghost use Rattle.window.specs.Sync.{is_sync, has_parity, first_sync};
ghost use Rattle.window.specs.Window.{bytes, width};
ghost use Rattle.claim.specs.declared.Kind.TheVariants.{Ubx};
ghost use Rattle.look.specs.Rules.{far, claim, look_ubx, look_rtcm};
ghost use Rattle.look.specs.Moves.{settled, step_move};
ghost use Rattle.seek.specs.Passed.{move_at, Stops};
ghost use Rattle.seek.specs.OneSide.{first_of, side_from, Begins, Beside, Tells, told_head, Heads};

use claim::{Kind, UbxHead, Verdict};
use look::{Sight, Why};
use sum::Sums;
use window::{Mode, Window};

// What a head tells that one side of the window has: bytes to pass; a UBX frame that it claims, or an RTCM frame that is read without
// parity.
#[derive(Clone, Copy)]
pub enum Head {
    Past(Why),
    Ubx(UbxHead),
    Rtcm { n: usize },
}

// How many bytes are passed in silence, and what is said there.
#[derive(Clone, Copy)]
pub struct Stop {
    pub skip: usize,
    pub verdict: Verdict,
}

// How many bytes are passed, by why.
fn far(why: Why) -> usize
    ensures { result ≡ far why }
{
    match why {
        Why::NoSync | Why::NotPair => 1,
        Why::OverMax => 2,
    }
}

// The first side that has bytes.
pub fn first_of<'a>(window: Window<'a>) -> &'a [u8]
    ensures { result.now ≡ first_of window.entry.carry.now window.entry.chunk.now }
{
    if window.carry.len() == 0 {
        window.chunk
    } else {
        window.carry
    }
}

// Rule 2, where one side has the head: the frame that it claims, or why bytes are passed.
fn ubx_head(max: u16, s: &[u8]) -> Result<UbxHead, Why>
    requires { 6 ≤ length s.now }
    ensures { Heads (λ cap u W. settled cap u W (look_ubx max W)) s.now (Some (told_head result)) }
{
    if s[1] != window::UBX_SYNC_CHAR_2 {
        return Err(Why::NotPair);
    }
    let length = sum::word(s[4], s[5]);
    if max < length {
        return Err(Why::OverMax);
    }
    Ok(UbxHead {
        class: s[2],
        id: s[3],
        n: usize::from(length),
    })
}

// A UBX frame whose head one side has. The window has w bytes; b stands behind that side, if anything does. A frame on both sides that
// is too long for the carry is left to the look at both.
fn glance_frame(cap: usize, s: &[u8], b: &[u8], w: usize, head: UbxHead) -> Option<Sight>
    requires { (head.n < 65536) × (w ≤ length s.now + length b.now) }
    ensures { (u : ℕ) (W : List ℕ) → Begins s.now W u w → Beside s.now b.now W u → Tells result (settled cap u W (claim (Ubx head.class head.id head.n))) }
{
    let body = head.n + claim::UBX_CHECKSUM_LEN;
    if w < head.n + 8 {
        return Some(Sight::Say(claim::lacks(cap, w, claim::UBX_SYNC_SIZE, body)));
    }
    if head.n + 8 <= s.len() {
        let end = claim::UBX_HEADER_LEN + head.n;
        let got = sum::update(sum::new(), &s[claim::UBX_SYNC_SIZE..end]);
        let expect = Sums {
            a: s[end],
            b: s[end + 1],
        };
        return Some(Sight::Say(claim::judged(expect, got, head)));
    }
    if cap < body {
        return None;
    }
    let both = Window { carry: s, chunk: b };
    Some(Sight::Say(look::ubx_judged(both, head)))
}

// What one side tells at B5, where it has the head.
fn glance_ubx(max: u16, cap: usize, s: &[u8], b: &[u8], w: usize) -> Option<Sight>
    requires { (6 ≤ length s.now) × (w ≤ length s.now + length b.now) }
    ensures { (u : ℕ) (W : List ℕ) → Begins s.now W u w → Beside s.now b.now W u → Tells result (settled cap u W (look_ubx max W)) }
{
    match ubx_head(max, s) {
        Ok(head) => glance_frame(cap, s, b, w, head),
        Err(why) => Some(Sight::Pass(why)),
    }
}

// Rule 3, where one side has the head. A whole frame that is read with parity, or that lies on both sides and is too long for the
// carry, is left to the look at both.
fn glance_rtcm(parity: bool, cap: usize, s: &[u8], w: usize) -> Option<Sight>
    requires { 3 ≤ length s.now }
    ensures { (u : ℕ) (W : List ℕ) → Begins s.now W u w → Tells result (settled cap u W (look_rtcm parity W)) }
{
    let n = claim::rtcm_length(s[1], s[2]);
    let size = n + claim::around(parity);
    if w < size {
        return Some(Sight::Say(claim::lacks(cap, w, 1, size)));
    }
    // Two tests, not one by `||`: joined, they hide from the proof which of them failed.
    if parity {
        return None;
    }
    if s.len() < size && cap < size {
        return None;
    }
    Some(Sight::Say(Verdict::Hand(Kind::Rtcm { n, parity: false })))
}

// The head at the front of one side, whose first byte is a sync byte of a mode that reads no parity.
pub fn head_of(max: u16, s: &[u8]) -> Option<Head>
    ensures { (mode : Mode) → is_sync mode (get_or s.now 0 0) ≡ true → has_parity mode ≡ false → Heads (λ cap u W. step_move mode max cap u W) s.now result }
{
    if s.len() < claim::UBX_HEADER_LEN {
        return None;
    }
    let x = s[0];
    if x == window::UBX_SYNC_CHAR_1 {
        return Some(match ubx_head(max, s) {
            Ok(head) => Head::Ubx(head),
            Err(why) => Head::Past(why),
        });
    }
    if x != window::RTCM_SYNC_CHAR {
        return None;
    }
    let n = claim::rtcm_length(s[1], s[2]);
    Some(Head::Rtcm { n })
}

// What one side tells of the front of a window of w bytes, by itself or, where it has a frame's head, with b behind it. The two are no
// `Window`: s is what is left of one side; b is the chunk, which stands behind s where s is of the carry, and else is not read. That s has a
// head is asked of each that looks there: a type for it would be built by `glance_at` alone, and taken apart at once.
fn glance(mode: Mode, max: u16, cap: usize, s: &[u8], b: &[u8], w: usize) -> Option<Sight>
    requires { (6 ≤ length s.now) × (w ≤ length s.now + length b.now) }
    ensures { (u : ℕ) (W : List ℕ) → Begins s.now W u w → Beside s.now b.now W u → Tells result (step_move mode max cap u W) }
{
    let x = s[0];
    if !window::is_sync(mode, x) {
        return Some(Sight::Pass(Why::NoSync));
    }
    if x == window::UBX_SYNC_CHAR_1 {
        return glance_ubx(max, cap, s, b, w);
    }
    if x == window::RTCM_SYNC_CHAR {
        return glance_rtcm(window::has_parity(mode), cap, s, w);
    }
    None
}

// The side on which the window's byte at k lies, from that byte on.
#[tactic(auto, unfolding(window::specs::Pick::pick))]
fn side_from<'a>(window: Window<'a>, k: usize) -> &'a [u8]
    requires { k ≤ width window }
    ensures { result.now ≡ side_from window.entry.carry.now window.entry.chunk.now k }
{
    let left = window.carry.len();
    if k < left {
        &window.carry[k..]
    } else {
        &window.chunk[k - left..]
    }
}

// What that side, s, tells of what is left of the window after its first k bytes, where it has a head there.
fn glance_at(mode: Mode, max: u16, cap: usize, window: Window, k: usize, s: &[u8]) -> Option<Sight>
    requires within { k ≤ width window }
    requires side { s.now ≡ side_from window.carry.now window.chunk.now k }
    ensures { Tells result (move_at mode max cap (length window.entry.carry.now) (bytes window.entry) k) }
{
    if s.len() < claim::UBX_HEADER_LEN {
        return None;
    }
    glance(mode, max, cap, s, window.chunk, window.len() - k)
}

// The look at what is left of the window after its first k bytes: at one side's head where that tells, else at both sides.
fn look_at(mode: Mode, max: u16, cap: usize, window: Window, k: usize, s: &[u8]) -> Sight
    requires within { k ≤ width window }
    requires side { s.now ≡ side_from window.carry.now window.chunk.now k }
    ensures { result ≡ move_at mode max cap (length window.entry.carry.now) (bytes window.entry) k }
{
    if let Some(sight) = glance_at(mode, max, cap, window, k, s) {
        return sight;
    }
    look::look(mode, max, cap, window.rest(k))
}

// The place of the first sync byte behind the n bytes that are passed from k on, or the window's length where there is none. Two bytes of
// the side, s, are looked at before any block is searched: behind a false head there is often another.
fn next_sync(mode: Mode, window: Window, k: usize, s: &[u8], n: usize) -> usize
    requires within { k + n ≤ width window }
    requires side { s.now ≡ side_from window.carry.now window.chunk.now k }
    ensures value { result ≡ k + n + first_sync mode (drop (k + n) (bytes window.entry)) }
    ensures upper_bound { result ≤ width window.entry }
{
    if n + 1 < s.len() {
        if window::is_sync(mode, s[n]) {
            return k + n;
        }
        if window::is_sync(mode, s[n + 1]) {
            return k + n + 1;
        }
    }
    window.find_sync(mode, k + n)
}

// Looks, and passes what is to be passed, until something is to be said. The bytes up to the next sync byte go at once, so the loop
// goes on by the search and counts nothing.
pub fn seek(mode: Mode, max: u16, cap: usize, window: Window) -> Stop
    ensures { Stops mode max cap (length window.entry.carry.now) (bytes window.entry) result.skip result.verdict }
{
    let w = window.len();
    let mut skip = 0;
    // A `while`, no `for`: a turn goes on at the next sync byte, not at the next byte.
    while skip < w {
        let side = side_from(window, skip);
        match look_at(mode, max, cap, window, skip, side) {
            Sight::Pass(why) => {
                skip = next_sync(mode, window, skip, side, far(why));
            }
            Sight::Say(verdict) => {
                return Stop { skip, verdict };
            }
        }
    }
    Stop {
        skip,
        verdict: Verdict::Wait(0),
    }
}
