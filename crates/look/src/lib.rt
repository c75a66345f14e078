// What stands at the window's front: the four rules. Rust: parser.rs, the heads of the three iterators' `next` and
// `extract_packet_ubx`, `extract_packet_rtcm`, `extract_packet_nmea`.
#![tactic(auto)]

ghost use Rattle.std.specs.Prelude.{◌≡◌, true, ◌+◌, ◌≤◌, ◌<◌, None, length};
ghost use Rattle.window.specs.Window.{bytes, width};
ghost use Rattle.claim.specs.declared.Kind.TheVariants.{Ubx, Rtcm, Sentence};
ghost use Rattle.claim.specs.Sizes.{around};
ghost use Rattle.look.specs.declared.Sight.TheVariants.{Say};
ghost use Rattle.look.specs.Rules.{claim, look_ubx, look_rtcm, look_nmea, end_at};
ghost use Rattle.look.specs.Moves.{judge, settled, step_move};

use claim::{Kind, UbxHead, Verdict};
use sum::Sums;
use window::{Mode, Window};

const NMEA_MIN_BUFFER_SIZE: usize = 8;

const NMEA_MAX_SENTENCE_LENGTH: usize = 82;

// Why bytes are passed in silence: the front byte is no sync byte; the second byte is not 62; n is over MAX.
#[derive(Clone, Copy)]
pub enum Why {
    NoSync,
    NotPair,
    OverMax,
}

// A look at the window's front: bytes to pass, or something to say.
#[derive(Clone, Copy)]
pub enum Sight {
    Pass(Why),
    Say(Verdict),
}

// A whole UBX frame: its sum decides.
#[tactic(auto, unfolding(crate::specs::Moves::judge))]
pub fn ubx_judged(window: Window, head: UbxHead) -> Verdict
    requires { head.n + 8 ≤ width window }
    ensures { result ≡ judge (Ubx head.class head.id head.n) (bytes window.entry) }
{
    let end = claim::UBX_HEADER_LEN + head.n;
    let got = window.sum_of(claim::UBX_SYNC_SIZE, end);
    let expect = Sums {
        a: window.byte_at(end),
        b: window.byte_at(end + 1),
    };
    claim::judged(expect, got, head)
}

// A UBX head with n at most MAX.
fn ubx_claimed(cap: usize, window: Window, head: UbxHead) -> Verdict
    requires { head.n < 65536 }
    ensures { Say result ≡ settled cap (length window.entry.carry.now) (bytes window.entry) (claim (Ubx head.class head.id head.n)) }
{
    let w = window.len();
    let size = head.n + claim::UBX_CHECKSUM_LEN;
    if claim::can_hand(cap, window.carry.len(), w, claim::UBX_HEADER_LEN, size) {
        return ubx_judged(window, head);
    }
    claim::lacks(cap, w, claim::UBX_SYNC_SIZE, size)
}

// Rule 2, at B5.
fn at_ubx(max: u16, cap: usize, window: Window) -> Sight
    ensures { result ≡ settled cap (length window.entry.carry.now) (bytes window.entry) (look_ubx max (bytes window.entry)) }
{
    let w = window.len();
    if w < claim::UBX_SYNC_SIZE {
        return Sight::Say(Verdict::Wait(0));
    }
    if window.byte_at(1) != window::UBX_SYNC_CHAR_2 {
        return Sight::Pass(Why::NotPair);
    }
    if w < claim::UBX_HEADER_LEN {
        return Sight::Say(Verdict::Wait(0));
    }
    let n = sum::word(window.byte_at(4), window.byte_at(5));
    if max < n {
        return Sight::Pass(Why::OverMax);
    }
    let head = UbxHead {
        class: window.byte_at(2),
        id: window.byte_at(3),
        n: usize::from(n),
    };
    Sight::Say(ubx_claimed(cap, window, head))
}

// A whole RTCM frame with its parity: that decides.
#[tactic(auto, unfolding(crate::specs::Moves::judge))]
fn parity_checked(window: Window, n: usize) -> Verdict
    requires { n + 6 ≤ width window }
    ensures { result ≡ judge (Rtcm n true) (bytes window.entry) }
{
    let end = n + claim::RTCM_HEADER_SIZE;
    let got = window.parity_of(end);
    let high = window.byte_at(end);
    let middle = window.byte_at(end + 1);
    let low = window.byte_at(end + 2);
    claim::parity_judged(parity::word(high, middle, low), got, n)
}

// A whole RTCM frame, read with parity or as the crate reads it.
#[tactic(auto, unfolding(crate::specs::Moves::judge))]
fn rtcm_judged(window: Window, n: usize, parity: bool) -> Verdict
    requires { n + around parity ≤ width window }
    ensures { result ≡ judge (Rtcm n parity) (bytes window.entry) }
{
    if parity {
        return parity_checked(window, n);
    }
    Verdict::Hand(Kind::Rtcm { n, parity: false })
}

// Rule 3, at D3.
fn at_rtcm(parity: bool, cap: usize, window: Window) -> Verdict
    ensures { Say result ≡ settled cap (length window.entry.carry.now) (bytes window.entry) (look_rtcm parity (bytes window.entry)) }
{
    let w = window.len();
    if w < claim::RTCM_HEADER_SIZE {
        return Verdict::Wait(0);
    }
    let n = claim::rtcm_length(window.byte_at(1), window.byte_at(2));
    let size = n + claim::around(parity);
    if claim::can_hand(cap, window.carry.len(), w, 0, size) {
        return rtcm_judged(window, n, parity);
    }
    claim::lacks(cap, w, 1, size)
}

// A sentence whose CR stands at i.
fn sentence_claimed(cap: usize, window: Window, i: usize) -> Verdict
    requires { i < width window }
    ensures { Say result ≡ settled cap (length window.entry.carry.now) (bytes window.entry) (claim (Sentence i)) }
{
    let w = window.len();
    let size = i + claim::NMEA_END_CHARS_LEN;
    if claim::can_hand(cap, window.carry.len(), w, 0, size) {
        return Verdict::Hand(Kind::Sentence { i });
    }
    claim::lacks(cap, w, 1, size)
}

// No end mark: one byte is drained where a sync byte stands at 1 or later, all where there are more than 82.
fn no_end(mode: Mode, cap: usize, window: Window) -> Verdict
    requires { 8 ≤ width window }
    ensures { Say result ≡ settled cap (length window.entry.carry.now) (bytes window.entry) (end_at mode (bytes window.entry) None) }
{
    let w = window.len();
    if window.find_sync(mode, 1) < w {
        return Verdict::Wait(1);
    }
    if NMEA_MAX_SENTENCE_LENGTH < w {
        return Verdict::Wait(w);
    }
    Verdict::Wait(0)
}

// Rule 4, at 24.
fn at_nmea(mode: Mode, cap: usize, window: Window) -> Verdict
    ensures { Say result ≡ settled cap (length window.entry.carry.now) (bytes window.entry) (look_nmea mode (bytes window.entry)) }
{
    let w = window.len();
    if w < NMEA_MIN_BUFFER_SIZE {
        return Verdict::Wait(0);
    }
    match window.find_end() {
        Some(i) => sentence_claimed(cap, window, i),
        None => no_end(mode, cap, window),
    }
}

// What a step does at the window's front. Mode, MAX and C stay three parameters: a rule takes just those that it goes by.
pub fn look(mode: Mode, max: u16, cap: usize, window: Window) -> Sight
    ensures { result ≡ step_move mode max cap (length window.entry.carry.now) (bytes window.entry) }
{
    if window.len() == 0 {
        return Sight::Say(Verdict::Wait(0));
    }
    let x = window.byte_at(0);
    if !window::is_sync(mode, x) {
        return Sight::Pass(Why::NoSync);
    }
    if x == window::UBX_SYNC_CHAR_1 {
        return at_ubx(max, cap, window);
    }
    if x == window::RTCM_SYNC_CHAR {
        return Sight::Say(at_rtcm(window::has_parity(mode), cap, window));
    }
    Sight::Say(at_nmea(mode, cap, window))
}
