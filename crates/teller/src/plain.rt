// Any teller as one with a function of its own for a chunk. Of a step it says what the teller within says.
#![tactic(auto)]

ghost use Rattle.std.specs.Prelude.{◌≡◌};
ghost use Rattle.teller.specs.Plain.{run_with, plain_words, plain_gets_on};

use crate::{ChunkTeller, Run, Teller};
use text::Lines;
use window::Mode;

// A teller, wrapped: it has beside it only what the teller within has.
#[derive(Clone, Copy)]
pub struct Plain<T> {
    pub by: T,
}

// Where a program stands, with what another teller has beside.
fn with<T: Copy, U: Copy>(run: Run<T>, by: U) -> Run<U>
    ensures { result ≡ run_with run by }
{
    Run {
        state: run.state,
        used: run.used,
        kept: run.kept,
        lost: run.lost,
        up: run.up,
        by,
    }
}

impl<T: Teller> Teller for Plain<T> {
    ghost words = { plain_words T.words };

    ghost LONGEST = { T.LONGEST };

    const LONGEST: usize = T::LONGEST;

    fn first(lines: &mut Lines, mode: Mode, max: u16, cap: usize) {
        T::first(lines, mode, max, cap);
    }

    fn one(run: &mut Run<Plain<T>>, carry: &mut [u8], chunk: &[u8], lines: &mut Lines) -> bool {
        let mut within = with(*run, run.by.by);
        let more = T::one(&mut within, carry, chunk, lines);
        *run = with(within, Plain { by: within.by });
        more
    }

    fn last(run: &Run<Plain<T>>, lines: &mut Lines) {
        T::last(&with(*run, run.by.by), lines);
    }

    ghost gets_on = { plain_gets_on T.gets_on };
}

impl<T: Teller> ChunkTeller for Plain<T> {
    fn chunk(
        rt: &(impl Print + Eprint),
        run: &mut Run<Plain<T>>,
        carry: &mut [u8],
        chunk: &[u8],
        lines: &mut Lines,
    ) {
        crate::through(rt, run, carry, chunk, lines);
    }
}
