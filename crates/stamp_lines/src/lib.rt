// The stamps' lines: what each step brought, the counts, and the bytes of their lines, put into lent memory behind what is there.
#![tactic(auto)]

ghost use Rattle.std.specs.Prelude.{◌≡◌, ◌+◌, ◌≤◌, length};
ghost use Rattle.text.specs.Adds.{Adds};
ghost use Rattle.stamp_lines.specs.Lines.{refused, said, line, tallies, totals};
ghost use Rattle.stamp_lines.specs.Notes.{frame, noted, goes_on, tallied};

use framer::Answer;
use stamp::{Fault, Reading};
use text::Lines;

// NAV-TIMEUTC.
const CLASS: u8 = 0x01;

const ID: u8 = 0x21;

// What a step brought: a frame of class 01 and id 21, with its reading or refusal; another UBX frame; a wrong sum; an answer that
// is not counted; or the end of what the chunk gives.
#[derive(Clone, Copy)]
pub enum Note {
    Time {
        at: usize,
        reading: Result<Reading, Fault>,
    },
    Other,
    Sum,
    Passed,
    End,
}

// Time frames by their reading, other UBX frames, and wrong sums.
#[derive(Clone, Copy, Default)]
pub struct Tally {
    pub stamps: u64,
    pub back: u64,
    pub refused: u64,
    pub other: u64,
    pub sums: u64,
}

// A refusal's words, to the line's end.
fn refused(lines: &mut Lines, fault: Fault)
    requires { lines.old.len + 30 ≤ length lines.old.out.now }
    ensures { Adds (refused fault) lines.old lines.new }
{
    let words: &[u8] = match fault {
        Fault::NotThisMessage => b" refused not this message\n",
        Fault::NotValid => b" refused not valid\n",
        Fault::Field => b" refused field\n",
    };
    lines.text(words);
}

// What a frame was read to, to the line's end.
fn said(lines: &mut Lines, reading: Result<Reading, Fault>)
    requires { lines.old.len + 30 ≤ length lines.old.out.now }
    ensures { Adds (said reading) lines.old lines.new }
{
    match reading {
        Ok(Reading::Stamp(t)) => lines.sized(b" stamp ", t),
        Ok(Reading::BackBy(d)) => lines.sized(b" back by ", d),
        Err(fault) => refused(lines, fault),
    }
}

// A time frame's line, where earlier closes reported `before` bytes as used. Nothing else has one.
pub fn line(lines: &mut Lines, before: u64, note: Note)
    requires { lines.old.len + 218 ≤ length lines.old.out.now }
    ensures { Adds (line before note) lines.old lines.new }
{
    if let Note::Time { at, reading } = note {
        lines.here(before, at);
        said(lines, reading);
    }
}

// What was counted.
fn tallies(lines: &mut Lines, t: Tally)
    requires { lines.old.len + 139 ≤ length lines.old.out.now }
    ensures adds { Adds (tallies t) lines.old lines.new }
    ensures upper_bound { lines.new.len ≤ lines.old.len + 139 }
{
    lines.labelled(b"end stamps ", t.stamps);
    lines.labelled(b" back ", t.back);
    lines.labelled(b" refused ", t.refused);
    lines.labelled(b" other ", t.other);
    lines.labelled(b" sums ", t.sums);
}

// The last line: what was counted; used and lost of all closes, kept of the last one.
pub fn totals(lines: &mut Lines, t: Tally, used: u64, kept: u64, lost: u64)
    requires { lines.old.len + 218 ≤ length lines.old.out.now }
    ensures { Adds (totals t used kept lost) lines.old lines.new }
{
    tallies(lines, t);
    lines.labelled(b" used ", used);
    lines.labelled(b" kept ", kept);
    lines.sized(b" lost ", lost);
}

// A UBX frame: a time frame by its class and id, whatever its length. A step tells the reading of every one.
#[tactic(auto, unfolding(crate::specs::Notes::frame, window::specs::Pick::pick))]
fn frame(class: u8, id: u8, at: usize, told: Option<Result<Reading, Fault>>) -> Note
    ensures { result ≡ frame class id at told }
{
    match told {
        Some(reading) if class == CLASS && id == ID => Note::Time { at, reading },
        _ => Note::Other,
    }
}

// What a step's answer brought.
pub fn noted(answer: Answer, told: Option<Result<Reading, Fault>>) -> Note
    ensures { result ≡ noted answer told }
{
    match answer {
        Answer::UbxFrame { class, id, at, .. } => frame(class, id, at, told),
        Answer::WrongSum { .. } => Note::Sum,
        Answer::RtcmFrame { .. }
        | Answer::Sentence { .. }
        | Answer::NoRoom { .. }
        | Answer::WrongParity { .. } => Note::Passed,
        Answer::NeedMore | Answer::Refused(_) => Note::End,
    }
}

// Whether there may be more to step to.
pub fn goes_on(note: Note) -> bool
    ensures { result ≡ goes_on note }
{
    !matches!(note, Note::End)
}

// One more of what a step brought, a time frame by its reading. Counts wrap at 64 bits.
pub fn tallied(t: Tally, note: Note) -> Tally
    ensures { result ≡ tallied t note }
{
    match note {
        Note::Time { reading, .. } => match reading {
            Ok(Reading::Stamp(_)) => Tally {
                stamps: t.stamps.wrapping_add(1),
                ..t
            },
            Ok(Reading::BackBy(_)) => Tally {
                back: t.back.wrapping_add(1),
                ..t
            },
            Err(_) => Tally {
                refused: t.refused.wrapping_add(1),
                ..t
            },
        },
        Note::Other => Tally {
            other: t.other.wrapping_add(1),
            ..t
        },
        Note::Sum => Tally {
            sums: t.sums.wrapping_add(1),
            ..t
        },
        Note::Passed | Note::End => t,
    }
}
