// Lists standard input in mode one, MAX 240, C 247. A program of one call: what it shares with the others is the teller's.
#![tactic(auto)]

use window::Mode;

fn main(rt: HostRuntime) {
    let mut carry = [0u8; 247];
    let mut chunk = [0u8; 16384];
    let mut out = [0u8; 65536];
    lister::list(
        &rt,
        &mut rt.stdin(),
        b"standard input",
        Mode::One(false),
        240,
        false,
        &mut carry,
        &mut chunk,
        &mut out,
    );
}
