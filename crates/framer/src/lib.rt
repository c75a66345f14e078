// The framer's answers and its step: a state of numbers, with carry and chunk lent to each call. Rust: parser.rs, `Parser` and
// the iterators.
#![tactic(auto)]

ghost use Rattle.std.specs.Prelude.{◌≡◌, ◌≤◌};
ghost use Rattle.look.specs.Within.{Says};
ghost use Rattle.state.specs.Words.{left_len, width, drain};
ghost use Rattle.framer.specs.Step.{frame_at, tale_at, say, step_from, step};
ghost use Rattle.framer.specs.Promises.{Said, Steps};

use claim::{Kind, Tale, Verdict};
use state::{Lent, Refusal, State};
use taking::Place;

// What a step answers; `at` is the position, `used` at the sync byte.
#[derive(Clone, Copy)]
pub enum Answer {
    UbxFrame {
        class: u8,
        id: u8,
        at: usize,
        place: Place,
    },
    RtcmFrame {
        at: usize,
        place: Place,
    },
    Sentence {
        at: usize,
        place: Place,
    },
    WrongSum {
        class: u8,
        id: u8,
        n: usize,
        at: usize,
        expect: u16,
        got: u16,
    },
    NoRoom {
        at: usize,
        size: usize,
    },
    NeedMore,
    Refused(Refusal),
    WrongParity {
        at: usize,
        expect: u32,
        got: u32,
    },
}

#[derive(Clone, Copy)]
pub struct Stepped {
    pub answer: Answer,
    pub state: State,
}

// A frame's answer, at a position.
fn frame_at(kind: Kind, at: usize, place: Place) -> Answer
    ensures { result ≡ frame_at kind at place }
{
    match kind {
        Kind::Ubx { class, id, .. } => Answer::UbxFrame {
            class,
            id,
            at,
            place,
        },
        Kind::Rtcm { .. } => Answer::RtcmFrame { at, place },
        Kind::Sentence { .. } => Answer::Sentence { at, place },
    }
}

// The answer of what hands out no bytes, at a position.
fn tale_at(tale: Tale, at: usize) -> Answer
    ensures { result ≡ tale_at tale at }
{
    match tale {
        Tale::WrongSum {
            class,
            id,
            n,
            expect,
            got,
        } => Answer::WrongSum {
            class,
            id,
            n,
            at,
            expect,
            got,
        },
        Tale::WrongParity { expect, got } => Answer::WrongParity { at, expect, got },
        Tale::NoRoom { size, .. } => Answer::NoRoom { at, size },
    }
}

// What is said of a state whose first `skip` bytes are passed.
#[tactic(auto, using(crate::proofs::Ready::room_of))]
fn said(p: &mut Lent, skip: usize, v: Verdict) -> Answer
    requires skip_bound { (skip ≤ width p.old.state) × Says p.old.state.cap (left_len (drain skip p.old.state)) (width (drain skip p.old.state)) v }
    ensures { Said (say (drain skip p.old.state) p.old.carry.now p.old.chunk.now v) p.old p.new result }
{
    let s = p.state;
    let at = s.used + skip;
    match v {
        Verdict::Wait(k) => {
            p.state = state::drained(s, skip + k);
            Answer::NeedMore
        }
        Verdict::Tell(tale) => {
            p.state = state::drained(s, skip + claim::cost(tale));
            tale_at(tale, at)
        }
        Verdict::Hand(kind) => {
            p.state = state::drained(s, skip + claim::skip(kind));
            let place = taking::take(p, claim::size(kind));
            frame_at(kind, at, place)
        }
    }
}

// A step that is not refused: it looks for what is to be said, and says it.
fn step_well(p: &mut Lent) -> Answer
    ensures { Said (step_from p.old.state p.old.carry.now p.old.chunk.now) p.old p.new result }
{
    let s = p.state;
    let stop = seek::seek(s.mode, s.max, s.cap, p.window());
    said(p, stop.skip, stop.verdict)
}

// The next answer of an open state. Refusals 2, 4 and 6.
pub fn step(s: State, carry: &mut [u8], chunk: &[u8]) -> Stepped
    ensures { Steps (step s carry.old chunk.now) result carry.new }
{
    match state::may_use(s, carry.len(), chunk.len()) {
        Err(refusal) => Stepped {
            answer: Answer::Refused(refusal),
            state: s,
        },
        Ok(()) => {
            let mut p = Lent {
                state: s,
                carry,
                chunk,
            };
            let answer = step_well(&mut p);
            Stepped {
                answer,
                state: p.state,
            }
        }
    }
}
