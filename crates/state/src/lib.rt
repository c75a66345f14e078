// The state of a parser: 01's window over a lent carry and a lent chunk, draining it, and the refusals that a state's numbers
// decide. Rust: parser.rs, `Parser`; parser/buffer.rs, `DualBuffer`'s `drain`.
#![tactic(auto)]

ghost use Rattle.std.specs.Prelude.{◌≡◌, true, ◌+◌, ◌≤◌};
ghost use Rattle.state.specs.Words.{left, ahead, width, drain, idle};
ghost use Rattle.state.specs.Ready.{Sane};
ghost use Rattle.state.specs.Refusals.{refusal_no, idle_bad, is_bad, may_open, may_use};

use window::{Mode, Window};

mod lent;

pub use lent::Lent;

// The longest carry, and the longest chunk.
pub const LIMIT: usize = 16384;

// What `used` and the window's length come to at most: a carry's bytes and a chunk's.
const COUNT_LIMIT: usize = 32768;

// 01's seven refusals, in the table's order.
#[derive(Clone, Copy, PartialEq, Eq)]
pub enum Refusal {
    CarryTooBig,
    BadState,
    AlreadyOpen,
    NotOpen,
    ChunkTooLong,
    OtherChunk,
    BadPlace,
}

// A refusal's number in the table.
impl From<Refusal> for u64 {
    ghost from_gives = { λ refusal n. n ≡ refusal_no refusal };

    fn from(refusal: Refusal) -> u64 {
        match refusal {
            Refusal::CarryTooBig => 1,
            Refusal::BadState => 2,
            Refusal::AlreadyOpen => 3,
            Refusal::NotOpen => 4,
            Refusal::ChunkTooLong => 5,
            Refusal::OtherChunk => 6,
            Refusal::BadPlace => 7,
        }
    }
}

// A parser: mode and MAX; C, the carry's length; how many of the carry's bytes are live, and how many of these used up; the
// bytes used since opening; whether it is open, the chunk's length then, and the chunk part used. `open` stands beside the chunk's two
// numbers since C lends any of them: `is_bad` and `idle_bad` answer for an idle state with a chunk.
#[derive(Clone, Copy)]
pub struct State {
    pub mode: Mode,
    pub max: u16,
    pub cap: usize,
    pub live: usize,
    pub off: usize,
    pub used: usize,
    pub open: bool,
    pub chunk: usize,
    pub part: usize,
}

// An idle state with so many live bytes.
pub fn idle(mode: Mode, max: u16, cap: usize, live: usize) -> State
    ensures { result ≡ idle mode max cap live }
{
    State {
        mode,
        max,
        cap,
        live,
        off: 0,
        used: 0,
        open: false,
        chunk: 0,
        part: 0,
    }
}

// Whether an idle state has off, used or a chunk length not 0.
#[tactic(auto, unfolding(window::specs::Pick::pick))]
fn idle_bad(s: State) -> bool
    ensures { result ≡ idle_bad s }
{
    !s.open && (0 < s.off || 0 < s.used || 0 < s.chunk)
}

// Refusal 2, in the table's order, over a carry of so many bytes. Each test keeps the sums of the next from wrapping.
#[tactic(auto, unfolding(crate::specs::Refusals::is_bad, window::specs::Pick::pick))]
fn is_bad(s: State, carry_len: usize) -> bool
    ensures { result ≡ is_bad s carry_len }
{
    carry_len != s.cap
        || LIMIT < s.cap
        || s.cap < s.live
        || s.live < s.off
        || s.chunk < s.part
        || LIMIT < s.chunk
        || COUNT_LIMIT < s.used
        || COUNT_LIMIT < (s.live - s.off) + (s.chunk - s.part) + s.used
        || idle_bad(s)
}

// Whether a state can be opened at once: where it can, no refusal comes. Tried first, so that the tests of the table, which
// also find out the number, are made only where one is to be said.
#[tactic(auto, unfolding(crate::specs::Refusals::may_open, crate::specs::Refusals::is_bad, window::specs::Pick::pick))]
pub fn opens(s: State, carry_len: usize, chunk_len: usize) -> bool
    ensures { result ≡ true → may_open s carry_len chunk_len ≡ Ok tt }
{
    !s.open
        && s.cap == carry_len
        && carry_len <= LIMIT
        && s.live <= s.cap
        && s.off == 0
        && s.used == 0
        && s.chunk == 0
        && s.part == 0
        && chunk_len <= LIMIT
}

// Opening: refusal 2, then 3, then 5.
#[tactic(auto, unfolding(crate::specs::Refusals::may_open, window::specs::Pick::pick))]
pub fn may_open(s: State, carry_len: usize, chunk_len: usize) -> Result<(), Refusal>
    ensures { result ≡ may_open s carry_len chunk_len }
{
    if opens(s, carry_len, chunk_len) {
        return Ok(());
    }
    if is_bad(s, carry_len) {
        return Err(Refusal::BadState);
    }
    if s.open {
        return Err(Refusal::AlreadyOpen);
    }
    if LIMIT < chunk_len {
        return Err(Refusal::ChunkTooLong);
    }
    Ok(())
}

// Whether a state can be stepped or closed at once, likewise.
#[tactic(auto, unfolding(crate::specs::Refusals::may_use, crate::specs::Refusals::is_bad, window::specs::Pick::pick))]
pub fn is_usable(s: State, carry_len: usize, chunk_len: usize) -> bool
    ensures { result ≡ true → may_use s carry_len chunk_len ≡ Ok tt }
{
    s.open
        && s.cap == carry_len
        && carry_len <= LIMIT
        && s.live <= s.cap
        && s.off <= s.live
        && s.chunk == chunk_len
        && s.chunk <= LIMIT
        && s.part <= s.chunk
        && s.used <= COUNT_LIMIT - ((s.live - s.off) + (s.chunk - s.part))
}

// Stepping and closing: refusal 2, then 4, then 6. It is no one function with `may_open`: of the three tests of each two differ, and so
// do their refusals.
#[tactic(auto, unfolding(crate::specs::Refusals::may_use, window::specs::Pick::pick))]
pub fn may_use(s: State, carry_len: usize, chunk_len: usize) -> Result<(), Refusal>
    ensures { result ≡ may_use s carry_len chunk_len }
{
    if is_usable(s, carry_len, chunk_len) {
        return Ok(());
    }
    if is_bad(s, carry_len) {
        return Err(Refusal::BadState);
    }
    if !s.open {
        return Err(Refusal::NotOpen);
    }
    if chunk_len != s.chunk {
        return Err(Refusal::OtherChunk);
    }
    Ok(())
}

// The window of a state, over the carry and the chunk that are lent to a call.
pub fn window_of<'a>(s: State, carry: &'a [u8], chunk: &'a [u8]) -> Window<'a>
    requires { Sane s carry.now chunk.now }
    ensures carry_left { result.carry.now ≡ left s carry.now }
    ensures chunk_ahead { result.chunk.now ≡ ahead s chunk.now }
{
    Window {
        carry: &carry[s.off..s.live],
        chunk: &chunk[s.part..],
    }
}

impl<'a> Lent<'a> {
    // The window.
    pub fn window(&self) -> Window<'_>
        ensures carry_left { result.carry.now ≡ left self.now.state self.now.carry.now }
        ensures chunk_ahead { result.chunk.now ≡ ahead self.now.state self.now.chunk.now }
    {
        window_of(self.state, self.carry, self.chunk)
    }
}

// The state with k bytes of its window drained. It asks of the numbers what it needs and no more: it looks at no lent byte.
pub fn drained(s: State, k: usize) -> State
    requires { (s.off ≤ s.live) × ((s.part ≤ s.chunk) × ((k ≤ width s) × (s.used + k ≤ 32768))) }
    ensures { result ≡ drain k s }
{
    let left = s.live - s.off;
    let used = s.used + k;
    if k <= left {
        let off = s.off + k;
        return State { off, used, ..s };
    }
    let off = s.live;
    let part = s.part + (k - left);
    State {
        off,
        used,
        part,
        ..s
    }
}
