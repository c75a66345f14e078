// The ways that most steps go, written straight into the words, which then have the next state: the lent one stays as it was.
// A step that goes another way is not done here, and then neither the words nor the carry are written.
#![tactic(auto)]

ghost use Rattle.std.specs.Prelude.{◌≡◌, true, false, ◌⊎◌, get_or};
ghost use Rattle.window.specs.Sync.{has_parity, is_sync, first_sync};
ghost use Rattle.state.specs.Words.{window, width, drain};
ghost use Rattle.framer.specs.Step.{step_from};
ghost use Rattle.quick_words.specs.Quickly.{Quickly};

use seek::Head;
use state::{Lent, State};

// A step at a sync byte, or at the end of the window.
fn at_front(p: &mut Lent, words: &mut [u64; 24], out: &mut [u64; 8]) -> bool
    requires mode_value { has_parity p.old.state.mode ≡ false }
    requires fact { (width p.old.state ≡ 0) ⊎ (is_sync p.old.state.mode (get_or (window p.old.state p.old.carry.now p.old.chunk.now) 0 0) ≡ true) }
    ensures quickly { Quickly result (step_from p.old.state p.old.carry.now p.old.chunk.now) words.old words.new out.new p.old.carry.now p.new.carry.now }
    ensures name { p.new.carry.ghost_name ≡ p.old.carry.ghost_name }
    ensures chunk { p.new.chunk.now ≡ p.old.chunk.now }
    ensures state { p.new.state ≡ p.old.state }
{
    let s = p.state;
    let f = seek::first_of(p.window());
    if f.len() == 0 {
        quick_words::wait(s, words, out);
        return true;
    }
    match seek::head_of(s.max, f) {
        Some(Head::Ubx(head)) => quick_frames::at_ubx(p, words, out, head),
        Some(Head::Rtcm { n }) => quick_frames::at_rtcm(p, words, out, n),
        Some(Head::Past(_)) | None => false,
    }
}

// The state where the noise before the next sync byte is drained.
fn past_noise(p: &Lent) -> State
    ensures { result ≡ drain (first_sync p.now.state.mode (window p.now.state p.now.carry.now p.now.chunk.now)) p.now.state }
{
    let s = p.state;
    if s.off < s.live {
        if window::is_sync(s.mode, p.carry[s.off]) {
            return s;
        }
        let k = p.window().find_sync(s.mode, 0);
        return state::drained(s, k);
    }
    if s.part < s.chunk {
        if window::is_sync(s.mode, p.chunk[s.part]) {
            return s;
        }
        let k = window::sync_in(s.mode, &p.chunk[s.part..]);
        return State {
            used: s.used + k,
            part: s.part + k,
            ..s
        };
    }
    s
}

// A step of a state that reads no parity, where it goes one of these ways.
pub fn step_at_once(p: &mut Lent, words: &mut [u64; 24], out: &mut [u64; 8]) -> bool
    requires mode_value { has_parity p.old.state.mode ≡ false }
    ensures quickly { Quickly result (step_from p.old.state p.old.carry.now p.old.chunk.now) words.old words.new out.new p.old.carry.now p.new.carry.now }
    ensures name { p.new.carry.ghost_name ≡ p.old.carry.ghost_name }
    ensures chunk { p.new.chunk.now ≡ p.old.chunk.now }
    ensures state { p.new.state ≡ p.old.state }
{
    let s = p.state;
    p.state = past_noise(p);
    let done = at_front(p, words, out);
    p.state = s;
    done
}
