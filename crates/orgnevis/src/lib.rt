// The framer for C: five functions over arrays of words and lent bytes. include/orgnevis.h documents them, and orgnevis_c exports
// them. The writer's four stand in writes.rt.
#![tactic(auto)]

pub mod writes;

ghost use Rattle.std.specs.Prelude.{◌≡◌, length};
ghost use Rattle.orgnevis.specs.Calls.{starts, opens, steps, closes, views};

use state::Lent;
use taking::Side;

// A fresh parser. Answers 0, 1, or 8 for a mode's number that isn't one, which writes nothing.
pub fn orgnevis_start(state: &mut [u64; 24], carry: &[u8], mode: u64, max: u16) -> u64
    ensures value { result ≡ (starts state.old (length carry.now) mode max).number }
    ensures state_after { state.new ≡ (starts state.old (length carry.now) mode max).words }
{
    let Some(mode) = words::read_mode(mode) else {
        return 8;
    };
    let started = opening::start(carry, mode, max);
    words::write_state(started.state, state);
    words::leave_no(started.leave)
}

// The whole of orgnevis_open. It is called in two places, since the compiler keeps apart only what is called twice: the quick way
// then stays short.
fn full_open(state: &mut [u64; 24], carry: &[u8], chunk: &[u8]) -> u64
    ensures value { result ≡ (opens state.old carry.now chunk.now).number }
    ensures state_after { state.new ≡ (opens state.old carry.now chunk.now).words }
{
    let Some(s) = words::read_state(state) else {
        return 2;
    };
    let opened = opening::open(s, carry, chunk);
    match opened.leave {
        Err(refusal) => refusal.into(),
        Ok(()) => {
            words::write_opened(opened.state, state);
            0
        }
    }
}

// Opens an idle state on a chunk, at once where that goes. Answers 0, 2, 3 or 5.
pub fn orgnevis_open(state: &mut [u64; 24], carry: &[u8], chunk: &[u8]) -> u64
    ensures value { result ≡ (opens state.old carry.now chunk.now).number }
    ensures state_after { state.new ≡ (opens state.old carry.now chunk.now).words }
{
    match words::read_plain(state, false) {
        None => full_open(state, carry, chunk),
        Some(s) => {
            if state::opens(s, carry.len(), chunk.len()) {
                if quick_chunk::open_at_once(s, state, carry, chunk) {
                    return 0;
                }
            }
            full_open(state, carry, chunk)
        }
    }
}

// The whole of orgnevis_step, likewise.
fn full_step(state: &mut [u64; 24], carry: &mut [u8], chunk: &[u8], out: &mut [u64; 8])
    ensures state_after { state.new ≡ (steps state.old carry.old chunk.now).words }
    ensures out_after { out.new ≡ (steps state.old carry.old chunk.now).out }
    ensures carry_after { carry.new ≡ (steps state.old carry.old chunk.now).carry }
{
    match words::read_state(state) {
        None => words::write_plain(out, 7, 0, 2, 0),
        Some(s) => {
            let stepped = framer::step(s, carry, chunk);
            words::write_stepped(stepped.state, state);
            words::write_answer(stepped.answer, out)
        }
    }
}

// The next answer of an open state, at once where that goes. Refusals 2, 4 and 6.
pub fn orgnevis_step(state: &mut [u64; 24], carry: &mut [u8], chunk: &[u8], out: &mut [u64; 8])
    ensures state_after { state.new ≡ (steps state.old carry.old chunk.now).words }
    ensures out_after { out.new ≡ (steps state.old carry.old chunk.now).out }
    ensures carry_after { carry.new ≡ (steps state.old carry.old chunk.now).carry }
{
    match words::read_plain(state, true) {
        None => full_step(state, carry, chunk, out),
        Some(s) => {
            if state::is_usable(s, carry.len(), chunk.len()) {
                let mut p = Lent {
                    state: s,
                    carry,
                    chunk,
                };
                if quick_step::step_at_once(&mut p, state, out) {
                    return;
                }
                full_step(state, carry, chunk, out)
            } else {
                full_step(state, carry, chunk, out)
            }
        }
    }
}

// The whole of orgnevis_close, likewise.
fn full_close(state: &mut [u64; 24], carry: &mut [u8], chunk: &[u8], out: &mut [u64; 16])
    ensures state_after { state.new ≡ (closes state.old carry.old chunk.now).words }
    ensures out_after { out.new ≡ (closes state.old carry.old chunk.now).out }
    ensures carry_after { carry.new ≡ (closes state.old carry.old chunk.now).carry }
{
    let Some(s) = words::read_state(state) else {
        return words::write_report(out, 2, 0, 0, 0);
    };
    let closed = opening::close(s, carry, chunk);
    match closed.leave {
        Err(refusal) => words::write_report(out, refusal.into(), 0, 0, 0),
        Ok(()) => {
            words::write_closed(closed.kept, state);
            words::write_report(
                out,
                0,
                closed.used as u64,
                closed.kept as u64,
                closed.lost as u64,
            )
        }
    }
}

// Closes an open state, at once where that goes. Refusals 2, 4 and 6. It has orgnevis_step's form and its own words, since C calls the two
// apart.
pub fn orgnevis_close(state: &mut [u64; 24], carry: &mut [u8], chunk: &[u8], out: &mut [u64; 16])
    ensures state_after { state.new ≡ (closes state.old carry.old chunk.now).words }
    ensures out_after { out.new ≡ (closes state.old carry.old chunk.now).out }
    ensures carry_after { carry.new ≡ (closes state.old carry.old chunk.now).carry }
{
    match words::read_plain(state, true) {
        None => full_close(state, carry, chunk, out),
        Some(open) => {
            if state::is_usable(open, carry.len(), chunk.len()) {
                quick_chunk::close_at_once(open, state, carry, chunk, out)
            } else {
                full_close(state, carry, chunk, out)
            }
        }
    }
}

// Whether a place lies within its side: 0, or 7.
pub fn orgnevis_view(carry: &[u8], chunk: &[u8], side: u64, start: u64, len: u64) -> u64
    ensures { result ≡ views (length carry.now) (length chunk.now) side start len }
{
    let side = match side {
        0 => Side::Carry,
        1 => Side::Chunk,
        _ => return 7,
    };
    words::leave_no(taking::may_view(carry, chunk, words::place_on(side, start, len)))
}
