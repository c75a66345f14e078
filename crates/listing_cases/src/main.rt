// The listing on made files: an empty one, a wrong sum, frames in noise, a frame cut at every place, no room, a loss, every kind of
// frame, and RTCM frames without parity and with it.
#![tactic(auto)]

ghost use Rattle.std.specs.Prelude.{◌≤◌};

use std::fs;
use std::rt::Files;
use window::Mode;

// Lists a file in chunks of at most `most` bytes.
fn list(
    rt: &(impl Files + Print + Eprint),
    name: &str,
    mode: Mode,
    max: u16,
    carry: &mut [u8],
    most: usize,
)
    requires { most ≤ 16384 }
{
    let mut chunk = [0u8; 16384];
    let mut out = [0u8; 128];
    let mut file = match fs::open(rt, name) {
        Ok(file) => file,
        Err(why) => {
            edge::fail(rt, name.as_bytes(), why);
            return;
        }
    };
    lister::list(
        rt,
        &mut file,
        name.as_bytes(),
        mode,
        max,
        false,
        carry,
        &mut chunk[..most],
        &mut out,
    );
}

// A frame of 13 bytes behind one byte of noise, in chunks of every length: each place is once the first cut.
fn cut_everywhere(rt: &(impl Files + Print + Eprint), carry: &mut [u8]) {
    for cut in 1..15 {
        list(rt, "frame", Mode::One(false), 240, carry, cut);
    }
}

// RTCM frames with right and wrong parity, read without it and with it in each mode; and the longest, cut before its parity: a carry
// of 1,029 bytes holds it, and one of 1,028 does not.
fn with_parity(rt: &(impl Files + Print + Eprint)) {
    let mut carry = [0u8; 1029];
    list(rt, "parity", Mode::Two(false), 240, &mut carry, 16384);
    list(rt, "parity", Mode::Two(true), 240, &mut carry, 16384);
    list(rt, "parity", Mode::Two(true), 240, &mut carry, 7);
    list(rt, "parity", Mode::Three(true), 240, &mut carry, 16384);
    list(rt, "parity", Mode::One(true), 240, &mut carry, 16384);
    list(rt, "longest", Mode::Two(true), 240, &mut carry, 1026);
    let mut short = [0u8; 1028];
    list(rt, "longest", Mode::Two(true), 240, &mut short, 1026);
}

fn main(rt: HostRuntime) {
    let mut carry = [0u8; 247];
    list(&rt, "empty", Mode::One(false), 240, &mut carry, 16384);
    list(&rt, "wrong_sum", Mode::One(false), 240, &mut carry, 16384);
    list(&rt, "capture", Mode::One(false), 240, &mut carry, 16384);
    list(&rt, "capture", Mode::One(false), 240, &mut carry, 97);
    cut_everywhere(&rt, &mut carry);
    let mut six = [0u8; 6];
    list(&rt, "room", Mode::One(false), 0, &mut six, 16384);
    let mut eight = [0u8; 8];
    list(&rt, "loss", Mode::Three(false), 16, &mut eight, 16384);
    let mut full = [0u8; 16384];
    list(&rt, "kinds", Mode::Three(false), 65535, &mut full, 16384);
    with_parity(&rt);
}
