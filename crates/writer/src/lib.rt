// 02, "Writing frames": a UBX frame built in lent memory from class, id and a payload that arrives in pieces, the length named
// first; and the MON-VER poll. A refused call writes nothing.
#![tactic(auto)]

ghost use Rattle.std.specs.Prelude.{◌≡◌, ◌+◌, ◌≤◌, length};
ghost use Rattle.writer.specs.Writing.{put, beginning, adding, finishing, polling};
ghost use Rattle.writer.specs.Promises.{Writes, Polls};

use writer_state::{Refusal, Writer};

// Not a Result with the state: a refused call hands back a state too, and a refused begin's is one that every later call refuses.
#[derive(Clone, Copy, PartialEq, Eq)]
pub struct Written {
    pub leave: Result<(), Refusal>,
    pub state: Writer,
}

// Puts bytes into the memory from a place on; all other bytes stay.
fn put(memory: &mut [u8], at: usize, bytes: &[u8])
    requires { at + length bytes.now ≤ length memory.old }
    ensures { memory.new ≡ put memory.old at bytes.now }
{
    carry::extend(memory, at, bytes, bytes.len());
}

// Begins a frame with a payload of `len` bytes: its six head bytes. Refused, the state is one that every later call refuses.
#[tactic(auto, using(writer_state::proofs::Granted::begin_granted, crate::proofs::Refused::begin_refused), unfolding(crate::specs::Writing::beginning))]
pub fn begin(memory: &mut [u8], class: u8, id: u8, len: usize) -> Written
    ensures { Writes (beginning memory.old class id len) result memory.new }
{
    let room = memory.len();
    let leave = writer_state::may_begin(room, len);
    if leave.is_err() {
        let state = Writer {
            room: 0,
            len: 0,
            written: 0,
        };
        return Written { leave, state };
    }
    let [low, high] = (len as u16).to_le_bytes();
    put(memory, 0, &[0xB5, 0x62, class, id, low, high]);
    let state = Writer {
        room,
        len,
        written: 0,
    };
    Written { leave, state }
}

// Writes the next piece of the payload, which may be empty. Refusals 3 and 4.
#[tactic(auto, using(writer_state::proofs::Granted::add_granted, crate::proofs::Refused::add_refused), unfolding(crate::specs::Writing::adding))]
pub fn piece(w: Writer, memory: &mut [u8], bytes: &[u8]) -> Written
    ensures { Writes (adding w memory.old bytes.now) result memory.new }
{
    let n = bytes.len();
    let leave = writer_state::may_add(w, memory.len(), n);
    if leave.is_err() {
        return Written { leave, state: w };
    }
    put(memory, writer_state::HEAD + w.written, bytes);
    let state = Writer {
        written: w.written + n,
        ..w
    };
    Written { leave, state }
}

// Writes the sum over class, id, length and payload, as they stand in the memory from byte 2 on, behind the payload. Refusals 3
// and 5.
#[tactic(auto, using(writer_state::proofs::Granted::finish_granted, crate::proofs::Refused::finish_refused), unfolding(crate::specs::Writing::finishing))]
pub fn finish(w: Writer, memory: &mut [u8]) -> Written
    ensures { Writes (finishing w memory.old) result memory.new }
{
    let leave = writer_state::may_finish(w, memory.len());
    if leave.is_ok() {
        let end = writer_state::HEAD + w.len;
        let sums = sum::update(sum::new(), &memory[2..end]);
        put(memory, end, &[sums.a, sums.b]);
    }
    Written { leave, state: w }
}

// Writes the MON-VER poll, a frame of class 0A, id 04 and no payload. Refusal 2, where there is no room for eight bytes.
#[tactic(auto, unfolding(crate::specs::Writing::polling, writer_state::specs::Refusals::may_poll, window::specs::Pick::pick))]
pub fn poll(memory: &mut [u8]) -> Result<(), Refusal>
    ensures { Polls (polling memory.old) result memory.new }
{
    if memory.len() < writer_state::AROUND {
        return Err(Refusal::NoRoom);
    }
    put(memory, 0, b"\xB5\x62\x0A\x04\x00\x00\x0E\x34");
    Ok(())
}
