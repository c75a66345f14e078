// A recorded call, and how it is made.
#![tactic(auto)]

ghost use Rattle.std.specs.Prelude.{◌≡◌, Some};
ghost use Rattle.calls.specs.Made.{answer_out, step_out, made};
ghost use Rattle.calls.specs.Text.{call_text};

use std::fmt;

// Start and view have what they are asked with. NoCall, which no record has, stays beside None: `make` promises an answer for it, `made`.
#[derive(Clone, Copy)]
pub enum Call {
    Start { mode: u64, max: u16 },
    Open,
    Step,
    Close,
    View { side: u64, start: u64, len: u64 },
    NoCall,
}

impl fmt::Display for Call {
    ghost output = { λ call. Some (call_text call) };

    fn fmt<W: fmt::Write>(&self, f: &mut fmt::Formatter<W>) -> fmt::Result {
        match self {
            Call::Start { .. } => write!(f, "start"),
            Call::Open => write!(f, "open"),
            Call::Step => write!(f, "step"),
            Call::Close => write!(f, "close"),
            Call::View { .. } => write!(f, "view"),
            Call::NoCall => write!(f, "no call"),
        }
    }
}

// What stands in out before a call that writes all of it.
const UNWRITTEN: u64 = 0xABAD_1DEA;

// Asked with 0 in word 5, and in word 4 with a MAX of 65,535 or less.
fn start_of(words: &[u64; 34]) -> Option<Call> {
    let max = u16::try_from(words[4]).ok()?;
    let mode = words[3];
    (words[5] == 0).then_some(Call::Start { mode, max })
}

// A call that is asked with nothing: words 3 to 5 are 0.
fn plain(call: Call, words: &[u64; 34]) -> Option<Call> {
    (words[3] == 0 && words[4] == 0 && words[5] == 0).then_some(call)
}

// The call that a record's words say. Words of another operation, or asked with what their operation isn't, say none.
pub fn of(words: &[u64; 34]) -> Option<Call> {
    match words[0] {
        1 => start_of(words),
        2 => plain(Call::Open, words),
        3 => plain(Call::Step, words),
        4 => plain(Call::Close, words),
        5 => Some(Call::View {
            side: words[3],
            start: words[4],
            len: words[5],
        }),
        _ => None,
    }
}

// The out words of a call that answers a number.
fn answer(n: u64) -> [u64; 16]
    ensures { result ≡ answer_out n }
{
    let mut all = [0; 16];
    all[0] = n;
    all
}

// The out words of a step.
fn step_out(out: [u64; 8]) -> [u64; 16]
    ensures { result ≡ step_out out }
{
    let mut all = [0; 16];
    all[..8].copy_from_slice(&out);
    all
}

// Makes the call and hands its out words back, 0 where it has none.
#[tactic(auto, unfolding(crate::specs::Made::made))]
pub fn make(call: Call, state: &mut [u64; 24], carry: &mut [u8], chunk: &[u8]) -> [u64; 16]
    ensures value { result ≡ (made call state.old carry.old chunk.now).out }
    ensures state_after { state.new ≡ (made call state.old carry.old chunk.now).words }
    ensures carry_after { carry.new ≡ (made call state.old carry.old chunk.now).carry }
{
    match call {
        Call::Start { mode, max } => answer(orgnevis::orgnevis_start(state, carry, mode, max)),
        Call::Open => answer(orgnevis::orgnevis_open(state, carry, chunk)),
        Call::Step => {
            let mut out = [UNWRITTEN; 8];
            orgnevis::orgnevis_step(state, carry, chunk, &mut out);
            step_out(out)
        }
        Call::Close => {
            let mut out = [UNWRITTEN; 16];
            orgnevis::orgnevis_close(state, carry, chunk, &mut out);
            out
        }
        Call::View { side, start, len } => {
            answer(orgnevis::orgnevis_view(carry, chunk, side, start, len))
        }
        Call::NoCall => answer(0),
    }
}
