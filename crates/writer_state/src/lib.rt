// The state of a frame that is being written, and the refusals that its numbers decide, in 02's order.
#![tactic(auto)]

ghost use Rattle.std.specs.Prelude.{◌≡◌};
ghost use Rattle.writer_state.specs.Refusals.{leave_no, refusal_no, may_begin, is_bad, may_add, may_finish};

// The longest payload.
const LONGEST: usize = 16376;

// What stands before the payload: two sync bytes, class, id, and two bytes of length.
pub const HEAD: usize = 6;

// What a frame has besides its payload: the head, and the two bytes of its sum.
pub const AROUND: usize = 8;

// 02's refusals, in its order.
#[derive(Clone, Copy, PartialEq, Eq)]
pub enum Refusal {
    TooLong,
    NoRoom,
    BadState,
    PieceTooLong,
    Early,
}

// A frame that is being written: the memory's length, the payload's length, and how much of the payload is written.
#[derive(Clone, Copy, PartialEq, Eq)]
pub struct Writer {
    pub room: usize,
    pub len: usize,
    pub written: usize,
}

// A refusal's number in 02's order.
impl From<Refusal> for u64 {
    ghost from_gives = { λ refusal n. n ≡ refusal_no refusal };

    fn from(refusal: Refusal) -> u64 {
        match refusal {
            Refusal::TooLong => 1,
            Refusal::NoRoom => 2,
            Refusal::BadState => 3,
            Refusal::PieceTooLong => 4,
            Refusal::Early => 5,
        }
    }
}

// What C is answered: the refusal's number, and 0 where there is none; as words' `leave_no` of the parser's refusals, which says why not
// as one.
pub fn leave_no(leave: Result<(), Refusal>) -> u64
    ensures { result ≡ leave_no leave }
{
    match leave {
        Ok(()) => 0,
        Err(refusal) => refusal.into(),
    }
}

// Beginning in so much room: refusal 1, then 2.
#[tactic(auto, unfolding(crate::specs::Refusals::may_begin, window::specs::Pick::pick))]
pub fn may_begin(room: usize, len: usize) -> Result<(), Refusal>
    ensures { result ≡ may_begin room len }
{
    if LONGEST < len {
        return Err(Refusal::TooLong);
    }
    if room < len + AROUND {
        return Err(Refusal::NoRoom);
    }
    Ok(())
}

// Refusal 3, over a memory of so many bytes. Each test keeps the sums of the next from wrapping.
#[tactic(auto, unfolding(crate::specs::Refusals::is_bad, window::specs::Pick::pick))]
fn is_bad(w: Writer, room: usize) -> bool
    ensures { result ≡ is_bad w room }
{
    room != w.room || LONGEST < w.len || w.room < w.len + AROUND || w.len < w.written
}

// A piece of n bytes: refusal 3, then 4, where less than that is left of the payload.
#[tactic(auto, using(crate::proofs::Granted::sound_of), unfolding(crate::specs::Refusals::may_add, window::specs::Pick::pick))]
pub fn may_add(w: Writer, room: usize, n: usize) -> Result<(), Refusal>
    ensures { result ≡ may_add w room n }
{
    if is_bad(w, room) {
        return Err(Refusal::BadState);
    }
    if w.len - w.written < n {
        return Err(Refusal::PieceTooLong);
    }
    Ok(())
}

// Finishing: refusal 3, then 5.
#[tactic(auto, unfolding(crate::specs::Refusals::may_finish, window::specs::Pick::pick))]
pub fn may_finish(w: Writer, room: usize) -> Result<(), Refusal>
    ensures { result ≡ may_finish w room }
{
    if is_bad(w, room) {
        return Err(Refusal::BadState);
    }
    if w.written < w.len {
        return Err(Refusal::Early);
    }
    Ok(())
}
