// A listing of what a reader gives, on standard output: chunk by chunk, each answer's line, in lent memory.
#![tactic(auto)]

ghost use Rattle.std.specs.Prelude.{◌≤◌, length};
ghost use Rattle.text.specs.Adds.{SameBuffer};
ghost use Rattle.teller.specs.Telling.{Through};
ghost use Rattle.lister.specs.Listing.{listing, Lists};
ghost use Rattle.lister.specs.Laws.{listing_gets_on};

use std::io::Read;
use teller::{ChunkTeller, Run, Teller};
use text::Lines;
use window::Mode;

// What a listing has beside: whether the frame of a wrong sum is named.
#[derive(Clone, Copy)]
pub struct Listing {
    pub named: bool,
}

impl Teller for Listing {
    ghost words = { listing };

    ghost LONGEST = { 84 };

    const LONGEST: usize = lines::LONGEST;

    fn first(lines: &mut Lines, mode: Mode, max: u16, cap: usize) {
        ends::header(lines, mode, max, cap);
    }

    // It goes on where there is a line.
    fn one(run: &mut Run<Listing>, carry: &mut [u8], chunk: &[u8], lines: &mut Lines) -> bool {
        let mode = run.state.mode;
        let stepped = framer::step(run.state, carry, chunk);
        let from = lines.len;
        run.state = stepped.state;
        lines::line(lines, run.by.named, mode, run.used, stepped.answer);
        from < lines.len
    }

    fn last(run: &Run<Listing>, lines: &mut Lines) {
        ends::totals(lines, run.used, run.kept, run.lost);
    }

    ghost gets_on = { listing_gets_on };
}

impl ChunkTeller for Listing {
    fn chunk(
        rt: &(impl Print + Eprint),
        run: &mut Run<Listing>,
        carry: &mut [u8],
        chunk: &[u8],
        lines: &mut Lines,
    ) {
        through(rt, run, carry, chunk, lines);
    }
}

// A chunk: opened, its answers' lines, closed. Each chunk that `list` reads goes through here. What comes of it is said in the
// listing's own words, and in the teller's.
pub fn through(
    rt: &(impl Print + Eprint),
    l: &mut Run<Listing>,
    carry: &mut [u8],
    chunk: &[u8],
    lines: &mut Lines,
)
    requires { 84 ≤ length lines.old.out.now }
    ensures lists { Lists l.old carry.old chunk.now l.new carry.new }
    ensures buffer { SameBuffer lines.old lines.new }
    ensures told { Through listing l.old carry.old chunk.now lines.old l.new carry.new lines.new }
{
    teller::through(rt, l, carry, chunk, lines);
}

// Lists the reader's bytes in chunks of at most `chunk`'s length, with `name` for what is told on standard error; `named`: the
// frame of a wrong sum is named.
pub fn list(
    rt: &(impl Print + Eprint),
    input: &mut impl Read,
    name: &[u8],
    mode: Mode,
    max: u16,
    named: bool,
    carry: &mut [u8],
    chunk: &mut [u8],
    out: &mut [u8],
)
    requires { 84 ≤ length out.old }
{
    teller::tell_chunks(
        rt,
        input,
        name,
        mode,
        max,
        Listing { named },
        carry,
        chunk,
        out,
    );
}
