// Writes frames and frames what it wrote: the MON-VER poll, and a CFG-MSG frame whose payload comes in three pieces, one of them
// empty. Says each call's number and the memory's bytes, then the listing's lines of the frame, fed alone as one chunk to a fresh
// parser in each mode. At last, calls that are all refused.
#![tactic(auto)]

use lines::LONGEST;
use state::State;
use text::Lines;
use window::Mode;
use writer::Written;
use writer_state::{Refusal, Writer};

const MAX: u16 = 240;

// The lines so far.
fn say(rt: &impl Print, lines: &Lines) {
    let _ = rt.write_all(lines.bytes());
}

// A refusal's number, or 0.
fn say_leave(rt: &impl Print, leave: Result<(), Refusal>) {
    let _ = print!(rt; " {}", writer_state::leave_no(leave));
}

// The number of a call of the writer; its next state is handed on.
fn said(rt: &impl Print, call: Written) -> Writer {
    say_leave(rt, call.leave);
    call.state
}

// The first line.
fn say_header(rt: &impl Print, mode: Mode, cap: usize) {
    let mut out = [0u8; LONGEST];
    let mut lines = Lines {
        out: &mut out,
        len: 0,
    };
    ends::header(&mut lines, mode, MAX, cap);
    say(rt, &lines);
}

// One step, and its answer's line, if it has one.
fn say_step(rt: &impl Print, s: State, carry: &mut [u8], chunk: &[u8]) -> State {
    let mut out = [0u8; LONGEST];
    let stepped = framer::step(s, carry, chunk);
    let mut lines = Lines {
        out: &mut out,
        len: 0,
    };
    lines::line(&mut lines, false, s.mode, 0, stepped.answer);
    say(rt, &lines);
    stepped.state
}

// The last line.
fn say_totals(rt: &impl Print, used: usize, kept: usize, lost: usize) {
    let mut out = [0u8; LONGEST];
    let mut lines = Lines {
        out: &mut out,
        len: 0,
    };
    ends::totals(&mut lines, used as u64, kept as u64, lost as u64);
    say(rt, &lines);
}

// The lines of a chunk in which there is one frame: the second step needs more.
fn list(rt: &impl Print, mode: Mode, chunk: &[u8]) {
    let mut carry = [0u8; 247];
    say_header(rt, mode, carry.len());
    let fresh = opening::start(&carry, mode, MAX).state;
    let open = opening::open(fresh, &carry, chunk).state;
    let first = say_step(rt, open, &mut carry, chunk);
    let second = say_step(rt, first, &mut carry, chunk);
    let closed = opening::close(second, &mut carry, chunk);
    say_totals(rt, closed.used, closed.kept, closed.lost);
}

// The bytes of the memory in hex, as a line's end.
fn say_memory(rt: &impl Print, memory: &[u8]) {
    let _ = print!(rt; ":");
    for x in memory {
        let _ = print!(rt; " {x:02X}");
    }
    let _ = println!(rt);
}

// The memory, and the lines of its first n bytes in each mode.
fn show(rt: &impl Print, memory: &[u8], n: usize) {
    say_memory(rt, memory);
    if let Some(frame) = memory.get(..n) {
        for mode in [Mode::One(false), Mode::Two(false), Mode::Three(false)] {
            list(rt, mode, frame);
        }
    }
}

// The poll, in eight of sixteen bytes.
fn poll(rt: &impl Print) {
    let mut memory = [0xFFu8; 16];
    let _ = print!(rt; "poll");
    say_leave(rt, writer::poll(&mut memory));
    show(rt, &memory, 8);
}

// CFG-MSG, which asks for NAV-TIMEUTC once a second: the payload in three pieces, with refused calls between, which leave no mark.
fn frame(rt: &impl Print) -> Writer {
    let mut memory = [0xFFu8; 16];
    let _ = print!(rt; "frame");
    let begun = said(rt, writer::begin(&mut memory, 0x06, 0x01, 3));
    let early = said(rt, writer::finish(begun, &mut memory));
    let long = said(rt, writer::piece(early, &mut memory, b"\x01\x21\x01\x00"));
    let two = said(rt, writer::piece(long, &mut memory, b"\x01\x21"));
    let none = said(rt, writer::piece(two, &mut memory, b""));
    let three = said(rt, writer::piece(none, &mut memory, b"\x01"));
    let over = said(rt, writer::piece(three, &mut memory, b"\x00"));
    let finished = said(rt, writer::finish(over, &mut memory));
    show(rt, &memory, 11);
    finished
}

// A memory that is too small, and not the writer's: every call is refused.
fn refused(rt: &impl Print, w: Writer) {
    let mut memory = [0xFFu8; 7];
    let _ = print!(rt; "refused");
    said(rt, writer::begin(&mut memory, 0x06, 0x01, 16377));
    said(rt, writer::begin(&mut memory, 0x06, 0x01, 0));
    say_leave(rt, writer::poll(&mut memory));
    said(rt, writer::piece(w, &mut memory, b""));
    said(rt, writer::finish(w, &mut memory));
    say_memory(rt, &memory);
}

fn main(rt: HostRuntime) {
    poll(&rt);
    refused(&rt, frame(&rt));
}
