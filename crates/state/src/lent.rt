// A state, with the carry and the chunk that are lent to a call that is not refused. A call that may be refused takes the three apart:
// until it is granted, they may not fit. So does `window_of`, which asks less, and so do the programs.
#![tactic(auto)]

ghost use Rattle.state.specs.Ready.{Ready};

use crate::State;

// The state's numbers fit each other, its carry and its chunk, and keep 01's sizes.
#[derive(Drop)]
pub struct Lent<'a> {
    pub state: State,
    pub carry: &'a mut [u8],
    pub chunk: &'a [u8],
    ghost ready: { Ready state carry.now chunk.now },
}
