// A program that tells what a reader gives, on standard output: chunk by chunk, each step's line, in lent memory. What one step
// does, and what the lines are, is the teller's.
#![tactic(auto)]

ghost use Rattle.std.specs.Prelude.{◌≡◌, ℕ, ◌+◌, ◌≤◌, length};
ghost use Rattle.text.specs.Adds.{SameBuffer, Adds};
ghost use Rattle.teller.specs.Words.{Words, GetsOn};
ghost use Rattle.teller.specs.Telling.{flushed, Emptied, counted, Makes, Tells, Fills, Answers, Through};

use opening::Closed;
use state::State;
use std::io::Read;
use text::Lines;
use window::Mode;

mod plain;

use plain::Plain;

// Where a program stands: the parser; used and lost of all closes so far, and kept of the last; whether every write so far was
// taken; and what the teller has beside. The lines that wait to be written stand in a buffer beside it.
#[derive(Clone, Copy)]
pub struct Run<T> {
    pub state: State,
    pub used: u64,
    pub kept: u64,
    pub lost: u64,
    pub up: bool,
    pub by: T,
}

pub trait Teller: Copy {
    // What a step makes, its line, and whether there may be more; and the first line and the last.
    ghost words: { Words Self };

    ghost LONGEST: { ℕ };

    // The longest line.
    const LONGEST: usize;

    // The first line, if there is one. It may say mode, MAX and C.
    fn first(lines: &mut Lines, mode: Mode, max: u16, cap: usize)
        requires { lines.old.len + LONGEST ≤ length lines.old.out.now }
        ensures { Adds (words.first mode max cap) lines.old lines.new };

    // One step, and its line. The answer is whether there may be more.
    fn one(run: &mut Run<Self>, carry: &mut [u8], chunk: &[u8], lines: &mut Lines) -> bool
        requires { lines.old.len + LONGEST ≤ length lines.old.out.now }
        ensures { Tells words run.old carry.old chunk.now lines.old result run.new carry.new lines.new };

    // The last line.
    fn last(run: &Run<Self>, lines: &mut Lines)
        requires { lines.old.len + LONGEST ≤ length lines.old.out.now }
        ensures { Adds (words.last run.now.by run.now.used run.now.kept run.now.lost) lines.old lines.new };

    ghost gets_on: { GetsOn words };
}

// A teller with a function of its own for a chunk, which does what `through` does, and may promise it in the teller's own words too.
// It stands beside `Teller` since that function calls `through`, which takes a `Teller`: in one trait each would wait for the other.
pub trait ChunkTeller: Teller {
    // A chunk: opened, stepped to its end, closed.
    fn chunk(
        rt: &(impl Print + Eprint),
        run: &mut Run<Self>,
        carry: &mut [u8],
        chunk: &[u8],
        lines: &mut Lines,
    )
        requires { Self.LONGEST ≤ length lines.old.out.now }
        ensures { Through Self.words run.old carry.old chunk.now lines.old run.new carry.new lines.new };
}

// The lines of the steps to come, as far as the buffer has room. The answer is whether it is full.
fn fill<T: Teller>(run: &mut Run<T>, carry: &mut [u8], chunk: &[u8], lines: &mut Lines) -> bool
    ensures { Fills T.words T.LONGEST run.old carry.old chunk.now lines.old result run.new carry.new lines.new }
{
    while T::LONGEST <= lines.out.len() - lines.len {
        if !T::one(run, carry, chunk, lines) {
            return false;
        }
    }
    true
}

// Writes the lines that wait. A write that fails is told on standard error, and nothing is written after it.
fn flush<T: Teller>(rt: &(impl Print + Eprint), run: &mut Run<T>, lines: &mut Lines)
    ensures run { run.new ≡ flushed run.old run.new.up }
    ensures lines { Emptied lines.old lines.new }
{
    if run.up {
        run.up = edge::write(rt, lines.bytes());
    }
    lines.len = 0;
}

// The lines of all steps with an opened chunk; those that fill the buffer are written.
fn answers<T: Teller>(
    rt: &(impl Print + Eprint),
    run: &mut Run<T>,
    carry: &mut [u8],
    chunk: &[u8],
    lines: &mut Lines,
)
    requires { T.LONGEST ≤ length lines.old.out.now }
    ensures { Answers T.words run.old carry.old chunk.now lines.old run.new carry.new lines.new }
{
    while fill(run, carry, chunk, lines) {
        flush(rt, run, lines);
    }
}

// The totals with a close's report.
fn count<T: Teller>(run: &mut Run<T>, closed: Closed)
    ensures { run.new ≡ counted run.old closed }
{
    run.state = closed.state;
    run.used = run.used.wrapping_add(closed.used as u64);
    run.kept = closed.kept as u64;
    run.lost = run.lost.wrapping_add(closed.lost as u64);
}

// A chunk: opened, stepped to its end, closed.
pub fn through<T: Teller>(
    rt: &(impl Print + Eprint),
    run: &mut Run<T>,
    carry: &mut [u8],
    chunk: &[u8],
    lines: &mut Lines,
)
    requires { T.LONGEST ≤ length lines.old.out.now }
    ensures { Through T.words run.old carry.old chunk.now lines.old run.new carry.new lines.new }
{
    run.state = opening::open(run.state, carry, chunk).state;
    answers(rt, run, carry, chunk, lines);
    count(run, opening::close(run.state, carry, chunk));
}

// Room for one more line: those that wait are written where there is none.
fn with_room<T: Teller>(rt: &(impl Print + Eprint), run: &mut Run<T>, lines: &mut Lines)
    requires { T.LONGEST ≤ length lines.old.out.now }
    ensures { Makes T.LONGEST run.old lines.old run.new lines.new }
{
    if lines.out.len() - lines.len < T::LONGEST {
        flush(rt, run, lines);
    }
}

// The last line, and what waits is written.
fn finish<T: Teller>(rt: &(impl Print + Eprint), run: &mut Run<T>, lines: &mut Lines)
    requires { T.LONGEST ≤ length lines.old.out.now }
{
    with_room(rt, run, lines);
    T::last(run, lines);
    flush(rt, run, lines);
}

// Tells the reader's bytes in chunks of at most `chunk`'s length, between the first line and the last, with `name` for what is told
// on standard error. It reads on until the input ends, or a read or a write fails. Nothing says that an input ends, so the reads are
// counted, up to a number that no run comes to. What a read gives and a write takes no clause can tell; what a chunk comes to is
// `chunk`'s to say.
pub fn tell_chunks<T: ChunkTeller>(
    rt: &(impl Print + Eprint),
    input: &mut impl Read,
    name: &[u8],
    mode: Mode,
    max: u16,
    by: T,
    carry: &mut [u8],
    chunk: &mut [u8],
    out: &mut [u8],
)
    requires { T.LONGEST ≤ length out.old }
{
    let mut lines = Lines { out, len: 0 };
    T::first(&mut lines, mode, max, carry.len());
    let mut run = Run {
        state: opening::start(carry, mode, max).state,
        used: 0,
        kept: 0,
        lost: 0,
        up: true,
        by,
    };
    for _ in 0..u64::MAX {
        let n = edge::read(rt, input, name, chunk);
        if n == 0 {
            break;
        }
        T::chunk(rt, &mut run, carry, &chunk[..n], &mut lines);
        if !run.up {
            break;
        }
    }
    finish(rt, &mut run, &mut lines)
}

// Tells the reader's bytes as `tell_chunks` does, for any teller: each chunk goes through `through`, also where the teller has a `chunk`
// of its own, and what it comes to is `through`'s to say.
pub fn tell<T: Teller>(
    rt: &(impl Print + Eprint),
    input: &mut impl Read,
    name: &[u8],
    mode: Mode,
    max: u16,
    by: T,
    carry: &mut [u8],
    chunk: &mut [u8],
    out: &mut [u8],
)
    requires { T.LONGEST ≤ length out.old }
{
    tell_chunks(rt, input, name, mode, max, Plain { by }, carry, chunk, out);
}
