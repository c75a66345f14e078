// Starting, opening and closing a parser: a state of numbers, with carry and chunk lent to each call. Rust: parser.rs, `Parser`;
// parser/buffer.rs, `DualBuffer`'s `Drop`.
#![tactic(auto)]

ghost use Rattle.std.specs.Prelude.{◌≡◌, length};
ghost use Rattle.state.specs.Ready.{Ready};
ghost use Rattle.opening.specs.Operations.{start, noted, open_on, opening, close_on, closing};
ghost use Rattle.opening.specs.Promises.{Opens, Closes};

use state::{LIMIT, Lent, Refusal, State};
use window::{Mode, least};

// Not a Result with the state: a refusal has a next state too, which `Opens` and `Closes` say; a refused start's has C = 0.
#[derive(Clone, Copy)]
pub struct Opened {
    pub leave: Result<(), Refusal>,
    pub state: State,
}

// Likewise; a refused close reports 0, 0, 0.
#[derive(Clone, Copy)]
pub struct Closed {
    pub leave: Result<(), Refusal>,
    pub used: usize,
    pub kept: usize,
    pub lost: usize,
    pub state: State,
}

// A fresh parser over a carry. Refused, with C = 0, where the carry is over 16,384 bytes.
pub fn start(carry: &[u8], mode: Mode, max: u16) -> Opened
    ensures { Opens (start mode max (length carry.now)) result }
{
    if LIMIT < carry.len() {
        return Opened {
            leave: Err(Refusal::CarryTooBig),
            state: state::idle(mode, max, 0, 0),
        };
    }
    Opened {
        leave: Ok(()),
        state: state::idle(mode, max, carry.len(), 0),
    }
}

// An opening that is not refused. Where the carry begins with a sync byte, there is nothing to look for.
// It takes no `Lent`: an opening only reads the carry, and a `Lent` has it to be written.
fn open_well(s: State, carry: &[u8], chunk: &[u8]) -> State
    requires { Ready (noted s (length chunk.now)) carry.now chunk.now }
    ensures { result ≡ (open_on s carry.now chunk.now (Ok tt)).state }
{
    let next = State {
        used: 0,
        open: true,
        chunk: chunk.len(),
        part: 0,
        ..s
    };
    if s.off < s.live && window::is_sync(s.mode, carry[s.off]) {
        return next;
    }
    let i = state::window_of(next, carry, chunk).find_sync(s.mode, 0);
    if i < (s.live - s.off) + chunk.len() {
        return state::drained(next, i);
    }
    next
}

// Opens an idle state on a chunk, and drains up to the first sync byte of the mode. Refusals 2, 3 and 5.
pub fn open(s: State, carry: &[u8], chunk: &[u8]) -> Opened
    ensures { Opens (opening s carry.now chunk.now) result }
{
    match state::may_open(s, carry.len(), chunk.len()) {
        Err(refusal) => Opened {
            leave: Err(refusal),
            state: s,
        },
        Ok(()) => Opened {
            leave: Ok(()),
            state: open_well(s, carry, chunk),
        },
    }
}

// A close that is not refused. The lent state stays. The next one is in the answer alone: it is idle and has no chunk, so what is lent does
// not fit it.
pub fn close_well(p: &mut Lent) -> Closed
    ensures value { result ≡ (close_on p.old.state p.old.carry.now p.old.chunk.now (Ok tt)).result }
    ensures carry_after { p.new.carry.now ≡ (close_on p.old.state p.old.carry.now p.old.chunk.now (Ok tt)).carry }
    ensures name { p.new.carry.ghost_name ≡ p.old.carry.ghost_name }
    ensures chunk { p.new.chunk.now ≡ p.old.chunk.now }
    ensures state { p.new.state ≡ p.old.state }
{
    let s = p.state;
    let rest = s.chunk - s.part;
    let left = carry::drain(p.carry, s.live, s.off);
    let n = least(rest, s.cap - left);
    let kept = carry::extend(p.carry, left, &p.chunk[s.part..], n);
    Closed {
        leave: Ok(()),
        used: s.used,
        kept,
        lost: rest - n,
        state: state::idle(s.mode, s.max, s.cap, kept),
    }
}

// Closes an open state: what is left is kept in the carry as far as it fits. Refusals 2, 4 and 6; a refused close reports 0, 0, 0.
pub fn close(s: State, carry: &mut [u8], chunk: &[u8]) -> Closed
    ensures { Closes (closing s carry.old chunk.now) result carry.new }
{
    match state::may_use(s, carry.len(), chunk.len()) {
        Err(refusal) => Closed {
            leave: Err(refusal),
            used: 0,
            kept: 0,
            lost: 0,
            state: s,
        },
        Ok(()) => {
            let mut p = Lent {
                state: s,
                carry,
                chunk,
            };
            close_well(&mut p)
        }
    }
}
