// 01's 'Run only' lines, run: each is a carry and one or two chunks put through the operations, and what they answer.
#![tactic(auto)]

use framer::Answer;
use state::State;
use window::Mode;

const MAX: u16 = 16;

// What a step answers, as far as these runs come to it.
fn say_answer(rt: &impl Print, answer: Answer) {
    let _ = match answer {
        Answer::RtcmFrame { at, place } => print!(rt; " rtcm frame at {at} length {}", place.len),
        Answer::NoRoom { at, size } => print!(rt; " no room at {at} size {size}"),
        Answer::NeedMore => print!(rt; " need more"),
        _ => print!(rt; " another answer"),
    };
}

// Opens on a chunk, steps once and closes; says the answer and the close's counts.
fn run_chunk(rt: &impl Print, s: State, carry: &mut [u8], chunk: &[u8]) -> State {
    let open = opening::open(s, carry, chunk).state;
    let stepped = framer::step(open, carry, chunk);
    say_answer(rt, stepped.answer);
    let closed = opening::close(stepped.state, carry, chunk);
    if closed.leave.is_err() {
        let _ = print!(rt; " refused");
    }
    let _ = println!(rt;
        ", used {} kept {} lost {}",
        closed.used, closed.kept, closed.lost
    );
    closed.state
}

// '$' and letters A, one chunk, in a carry of 128 bytes, mode three.
fn sentence(rt: &impl Print, chunk: &[u8]) {
    let mut carry = [0u8; 128];
    let _ = print!(rt; "sentence {}:", chunk.len());
    let fresh = opening::start(&carry, Mode::Three(false), MAX).state;
    run_chunk(rt, fresh, &mut carry, chunk);
}

// An RTCM frame with n = 1,023, cut after 3 bytes, in mode two.
fn rtcm(rt: &impl Print, carry: &mut [u8]) {
    let head = [0xD3u8, 0x03, 0xFF];
    let body = [0u8; 1023];
    let _ = print!(rt; "carry {}:", carry.len());
    let fresh = opening::start(carry, Mode::Two(false), MAX).state;
    let waiting = run_chunk(rt, fresh, carry, &head);
    let _ = print!(rt; "  then:");
    run_chunk(rt, waiting, carry, &body);
}

fn main(rt: HostRuntime) {
    let mut kept = [b'A'; 82];
    kept[0] = b'$';
    sentence(&rt, &kept);
    let mut drained = [b'A'; 83];
    drained[0] = b'$';
    sentence(&rt, &drained);
    rtcm(&rt, &mut [0u8; 1025]);
    rtcm(&rt, &mut [0u8; 1026]);
}
