// A frame that is claimed at the window's front: it waits, is handed out, or its sum is wrong. Where none of this is done here,
// nothing is written.
// That a frame is claimed there is asked of each kind: a type for it would be built by quick_step alone, and taken apart at once.
#![tactic(auto)]

ghost use Rattle.std.specs.Prelude.{◌≡◌, false, ◌+◌, ◌≤◌, ◌<◌};
ghost use Rattle.claim.specs.declared.Kind.TheVariants.{Ubx, Rtcm};
ghost use Rattle.look.specs.Rules.{claim};
ghost use Rattle.look.specs.Moves.{settled};
ghost use Rattle.state.specs.Words.{left_len, window, width};
ghost use Rattle.framer.specs.Step.{move_of, step_from};
ghost use Rattle.quick_words.specs.Quickly.{Quickly};

use claim::{Kind, UbxHead};
use state::Lent;
use sum::Sums;

// A UBX frame that is claimed, and lies on both sides: its sum decides.
fn ubx_across(p: &mut Lent, words: &mut [u64; 24], out: &mut [u64; 8], head: UbxHead) -> bool
    requires chunk_value { move_of p.old.state p.old.carry.now p.old.chunk.now ≡ settled p.old.state.cap (left_len p.old.state) (window p.old.state p.old.carry.now p.old.chunk.now) (claim (Ubx head.class head.id head.n)) }
    requires s_bound { (left_len p.old.state < head.n + 8) × (head.n + 8 ≤ width p.old.state) }
    ensures quickly { Quickly result (step_from p.old.state p.old.carry.now p.old.chunk.now) words.old words.new out.new p.old.carry.now p.new.carry.now }
    ensures name { p.new.carry.ghost_name ≡ p.old.carry.ghost_name }
    ensures chunk { p.new.chunk.now ≡ p.old.chunk.now }
    ensures state { p.new.state ≡ p.old.state }
{
    let s = p.state;
    let UbxHead { class, id, n } = head;
    let len = n + claim::UBX_CHECKSUM_LEN;
    if !quick_words::has_room(s, claim::UBX_HEADER_LEN, len) {
        return false;
    }
    let check = claim::UBX_HEADER_LEN + n;
    let window = p.window();
    let got = window.sum_of(claim::UBX_SYNC_SIZE, check);
    let x = window.byte_at(check);
    let y = window.byte_at(check + 1);
    if x == got.a && y == got.b {
        let kind = Kind::Ubx { class, id, n };
        quick_words::bring(p, words, out, kind, claim::UBX_HEADER_LEN, len);
        return true;
    }
    quick_words::tell_wrong(s, words, out, head, Sums { a: x, b: y }, got);
    true
}

// A UBX frame that is claimed.
pub fn at_ubx(p: &mut Lent, words: &mut [u64; 24], out: &mut [u64; 8], head: UbxHead) -> bool
    requires chunk_value { move_of p.old.state p.old.carry.now p.old.chunk.now ≡ settled p.old.state.cap (left_len p.old.state) (window p.old.state p.old.carry.now p.old.chunk.now) (claim (Ubx head.class head.id head.n)) }
    requires n_bound { head.n < 65536 }
    ensures quickly { Quickly result (step_from p.old.state p.old.carry.now p.old.chunk.now) words.old words.new out.new p.old.carry.now p.new.carry.now }
    ensures name { p.new.carry.ghost_name ≡ p.old.carry.ghost_name }
    ensures chunk { p.new.chunk.now ≡ p.old.chunk.now }
    ensures state { p.new.state ≡ p.old.state }
{
    let s = p.state;
    let UbxHead { class, id, n } = head;
    let w = (s.live - s.off) + (s.chunk - s.part);
    if w < n + 8 {
        if s.cap < w {
            return false;
        }
        quick_words::wait(s, words, out);
        return true;
    }
    let f = seek::first_of(p.window());
    if f.len() < n + 8 {
        return ubx_across(p, words, out, head);
    }
    let check = claim::UBX_HEADER_LEN + n;
    let got = sum::update(sum::new(), &f[claim::UBX_SYNC_SIZE..check]);
    let x = f[check];
    let y = f[check + 1];
    if x == got.a && y == got.b {
        let kind = Kind::Ubx { class, id, n };
        let len = n + claim::UBX_CHECKSUM_LEN;
        quick_words::hand(s, words, out, kind, claim::UBX_HEADER_LEN, len);
        return true;
    }
    quick_words::tell_wrong(s, words, out, head, Sums { a: x, b: y }, got);
    true
}

// An RTCM frame that is claimed, and read without parity.
pub fn at_rtcm(p: &mut Lent, words: &mut [u64; 24], out: &mut [u64; 8], n: usize) -> bool
    requires chunk_value { move_of p.old.state p.old.carry.now p.old.chunk.now ≡ settled p.old.state.cap (left_len p.old.state) (window p.old.state p.old.carry.now p.old.chunk.now) (claim (Rtcm n false)) }
    requires n_bound { n < 1024 }
    ensures quickly { Quickly result (step_from p.old.state p.old.carry.now p.old.chunk.now) words.old words.new out.new p.old.carry.now p.new.carry.now }
    ensures name { p.new.carry.ghost_name ≡ p.old.carry.ghost_name }
    ensures chunk { p.new.chunk.now ≡ p.old.chunk.now }
    ensures state { p.new.state ≡ p.old.state }
{
    let s = p.state;
    let left = s.live - s.off;
    let w = left + (s.chunk - s.part);
    let size = n + claim::RTCM_HEADER_SIZE;
    if w < size {
        if s.cap < w {
            return false;
        }
        quick_words::wait(s, words, out);
        return true;
    }
    let kind = Kind::Rtcm { n, parity: false };
    if left == 0 || size <= left {
        quick_words::hand(s, words, out, kind, 0, size);
        return true;
    }
    if !quick_words::has_room(s, 0, size) {
        return false;
    }
    quick_words::bring(p, words, out, kind, 0, size);
    true
}
