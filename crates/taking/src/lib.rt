// A body's place: taking brings the body to one side, and viewing reads it there. Rust: parser/buffer.rs, `DualBuffer`'s `take`.
#![tactic(auto)]

ghost use Rattle.std.specs.Prelude.{◌≡◌, ◌<◌, length};
ghost use Rattle.state.specs.Words.{left_len};
ghost use Rattle.state.specs.Ready.{Ready, Room};
ghost use Rattle.taking.specs.Take.{take_grow, take_shift, taking};
ghost use Rattle.taking.specs.Takes.{Takes};
ghost use Rattle.taking.specs.View.{view_leave, may_view, view_in, view};

use state::{Lent, Refusal, State};
use window::least;

// The two lent buffers.
#[derive(Clone, Copy)]
pub enum Side {
    Carry,
    Chunk,
}

// Where a body lies: its side, its start from that buffer's first byte, and its length. Good until the next step or close.
#[derive(Clone, Copy)]
pub struct Place {
    pub side: Side,
    pub start: usize,
    pub len: usize,
}

// A body's place, and the state once it is taken.
#[derive(Clone, Copy)]
pub struct Taken {
    pub place: Place,
    pub state: State,
}

// t bytes taken on both sides, where the chunk's share is less than the room behind the live bytes: that is filled.
// It takes no `Lent`: a caller may ask for more than that room, and what it then leaves is not `Ready`.
pub fn take_grow(s: State, carry: &mut [u8], chunk: &[u8], t: usize) -> Taken
    requires ready { Ready s carry.old chunk.now }
    requires room { Room s t }
    ensures value { result ≡ (take_grow s carry.old chunk.now t).result }
    ensures carry_after { carry.new ≡ (take_grow s carry.old chunk.now t).carry }
{
    let n = least(s.chunk - s.part, s.cap - s.live);
    let live = carry::extend(carry, s.live, &chunk[s.part..], n);
    let state = State {
        live,
        off: s.off + t,
        used: s.used + t,
        part: s.part + n,
        ..s
    };
    let place = Place {
        side: Side::Carry,
        start: s.off,
        len: t,
    };
    Taken { place, state }
}

// t bytes taken on both sides, where it is not: the carry is drained by `off` first, and the share is copied alone.
fn take_shift(p: &mut Lent, t: usize) -> Place
    requires room { Room p.old.state t }
    requires s_nonzero { (0 < left_len p.old.state) × (left_len p.old.state < t) }
    ensures { Takes (take_shift p.old.state p.old.carry.now p.old.chunk.now t) p.old p.new result }
{
    let s = p.state;
    let left = carry::drain(p.carry, s.live, s.off);
    let m = t - left;
    let live = carry::extend(p.carry, left, &p.chunk[s.part..], m);
    p.state = State {
        live,
        off: t,
        used: s.used + t,
        part: s.part + m,
        ..s
    };
    Place {
        side: Side::Carry,
        start: 0,
        len: t,
    }
}

// The window's first t bytes taken: on one side they stay where they are, on both they are brought to the carry.
#[tactic(auto, unfolding(crate::specs::Take::taking, window::specs::Pick::pick))]
pub fn take(p: &mut Lent, t: usize) -> Place
    requires room { Room p.old.state t }
    ensures { Takes (taking p.old.state p.old.carry.now p.old.chunk.now t) p.old p.new result }
{
    let s = p.state;
    let left = s.live - s.off;
    if left == 0 {
        p.state = State {
            used: s.used + t,
            part: s.part + t,
            ..s
        };
        return Place {
            side: Side::Chunk,
            start: s.part,
            len: t,
        };
    }
    if t <= left {
        p.state = State {
            off: s.off + t,
            used: s.used + t,
            ..s
        };
        return Place {
            side: Side::Carry,
            start: s.off,
            len: t,
        };
    }
    if t - left < s.cap - s.live {
        let chunk = p.chunk;
        let taken = take_grow(s, p.carry, chunk, t);
        p.state = taken.state;
        return taken.place;
    }
    take_shift(p, t)
}

// Refusal 7, where a place passes the end of its side.
pub fn may_view(carry: &[u8], chunk: &[u8], place: Place) -> Result<(), Refusal>
    ensures { result ≡ may_view carry.now chunk.now place }
{
    match place.side {
        Side::Carry => within(place, carry.len()),
        Side::Chunk => within(place, chunk.len()),
    }
}

// Refusal 7 on a side of so many bytes. No sum is made: a place may hold any number.
fn within(place: Place, side_len: usize) -> Result<(), Refusal>
    ensures { result ≡ view_leave place side_len }
{
    if side_len < place.start {
        return Err(Refusal::BadPlace);
    }
    if side_len - place.start < place.len {
        return Err(Refusal::BadPlace);
    }
    Ok(())
}

// The part of the carry or of the chunk that a place names; refused, the empty beginning of the carry.
pub fn view<'a>(carry: &'a [u8], chunk: &'a [u8], place: Place) -> &'a [u8]
    ensures { result.now ≡ view carry.now chunk.now place }
{
    match place.side {
        Side::Carry => part_of(carry, carry, place),
        Side::Chunk => part_of(chunk, carry, place),
    }
}

// The part of a side that a place names; refused, the empty beginning of the carry.
fn part_of<'a>(side: &'a [u8], carry: &'a [u8], place: Place) -> &'a [u8]
    ensures { result.now ≡ view_in side.now carry.now place (view_leave place (length side.now)) }
{
    match within(place, side.len()) {
        Err(_) => &carry[..0],
        Ok(()) => {
            let end = place.start + place.len;
            &side[place.start..end]
        }
    }
}
