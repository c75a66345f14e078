// A chunk opened and closed at once, written straight into the words.
#![tactic(auto)]

ghost use Rattle.std.specs.Prelude.{◌≡◌, length};
ghost use Rattle.state.specs.Refusals.{may_open, may_use};
ghost use Rattle.opening.specs.Operations.{closing};
ghost use Rattle.words.specs.Words.{closed_words, close_words};
ghost use Rattle.quick_chunk.specs.AtOnce.{opened_if};

use state::{Lent, State};

// An opening that is granted, where the carry begins with a sync byte or has no live byte; another is not done, and writes
// nothing.
pub fn open_at_once(s: State, state: &mut [u64; 24], carry: &[u8], chunk: &[u8]) -> bool
    requires { may_open s (length carry.now) (length chunk.now) ≡ Ok tt }
    ensures { state.new ≡ opened_if result s carry.now chunk.now state.old }
{
    let len = chunk.len();
    let whole = State {
        used: 0,
        open: true,
        chunk: len,
        part: 0,
        ..s
    };
    if 0 < s.live {
        if !window::is_sync(s.mode, carry[0]) {
            return false;
        }
        words::write_opened(whole, state);
        return true;
    }
    let i = window::sync_in(s.mode, chunk);
    if i == len {
        words::write_opened(whole, state);
        return true;
    }
    let past = State {
        used: i,
        part: i,
        ..whole
    };
    words::write_opened(past, state);
    true
}

// A close that is granted.
pub fn close_at_once(
    s: State,
    state: &mut [u64; 24],
    carry: &mut [u8],
    chunk: &[u8],
    out: &mut [u64; 16],
)
    requires { may_use s (length carry.old) (length chunk.now) ≡ Ok tt }
    ensures state_after { state.new ≡ closed_words (closing s carry.old chunk.now).result.kept state.old }
    ensures out_after { out.new ≡ close_words (closing s carry.old chunk.now).result }
    ensures carry_after { carry.new ≡ (closing s carry.old chunk.now).carry }
{
    let mut p = Lent {
        state: s,
        carry,
        chunk,
    };
    let report = opening::close_well(&mut p);
    words::write_closed(report.kept, state);
    words::write_report(
        out,
        0,
        report.used as u64,
        report.kept as u64,
        report.lost as u64,
    )
}
