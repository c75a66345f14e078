// The stamps in what a reader gives, on standard output: chunk by chunk, a line for each frame of class 01 and id 21, in lent
// memory.
#![tactic(auto)]

ghost use Rattle.std.specs.Prelude.{◌≤◌, length};
ghost use Rattle.teller.specs.Telling.{Through as Told};
ghost use Rattle.stamper.specs.Stamping.{stamping, Through};
ghost use Rattle.stamper.specs.Laws.{stamping_gets_on};

use stamp_lines::Tally;
use std::io::Read;
use teller::{ChunkTeller, Run, Teller};
use text::Lines;
use window::Mode;

// What the stamps have beside: the last stamp, and what was counted.
#[derive(Clone, Copy)]
pub struct Stamping {
    pub clock: Option<u64>,
    pub tally: Tally,
}

impl Teller for Stamping {
    ghost words = { stamping };

    ghost LONGEST = { 218 };

    // The last line, with eight numbers of 20 digits, and its line end.
    const LONGEST: usize = 218;

    // There is none.
    fn first(_lines: &mut Lines, _mode: Mode, _max: u16, _cap: usize) {}

    // What the step brought is counted.
    fn one(run: &mut Run<Stamping>, carry: &mut [u8], chunk: &[u8], lines: &mut Lines) -> bool {
        let timed = stamp::step(run.by.clock, run.state, carry, chunk);
        let note = stamp_lines::noted(timed.answer, timed.told);
        run.state = timed.state;
        run.by.clock = timed.clock;
        run.by.tally = stamp_lines::tallied(run.by.tally, note);
        stamp_lines::line(lines, run.used, note);
        stamp_lines::goes_on(note)
    }

    fn last(run: &Run<Stamping>, lines: &mut Lines) {
        stamp_lines::totals(lines, run.by.tally, run.used, run.kept, run.lost);
    }

    ghost gets_on = { stamping_gets_on };
}

impl ChunkTeller for Stamping {
    fn chunk(
        rt: &(impl Print + Eprint),
        run: &mut Run<Stamping>,
        carry: &mut [u8],
        chunk: &[u8],
        lines: &mut Lines,
    ) {
        through(rt, run, carry, chunk, lines);
    }
}

// A chunk: opened, stepped to its end, closed. Each chunk that `stamps` reads goes through here. What comes of it is said in the
// stamps' own words, and in the teller's.
pub fn through(
    rt: &(impl Print + Eprint),
    l: &mut Run<Stamping>,
    carry: &mut [u8],
    chunk: &[u8],
    lines: &mut Lines,
)
    requires { 218 ≤ length lines.old.out.now }
    ensures through { Through l.old carry.old chunk.now lines.old l.new carry.new lines.new }
    ensures told { Told stamping l.old carry.old chunk.now lines.old l.new carry.new lines.new }
{
    teller::through(rt, l, carry, chunk, lines);
}

// The stamps in the reader's bytes, in chunks of at most `chunk`'s length, with `name` for what is told on standard error.
pub fn stamps(
    rt: &(impl Print + Eprint),
    input: &mut impl Read,
    name: &[u8],
    mode: Mode,
    max: u16,
    carry: &mut [u8],
    chunk: &mut [u8],
    out: &mut [u8],
)
    requires { 218 ≤ length out.old }
{
    let by = Stamping {
        clock: None,
        tally: Tally::default(),
    };
    teller::tell_chunks(rt, input, name, mode, max, by, carry, chunk, out);
}
