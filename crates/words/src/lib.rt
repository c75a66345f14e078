// The words in which the framer's states and answers cross to C. include/orgnevis.h says which word is what.
#![tactic(auto)]

ghost use Rattle.std.specs.Prelude.{◌≡◌, ◌≤◌, slice_index};
ghost use Rattle.state.specs.Refusals.{leave_no};
ghost use Rattle.framer.specs.Answers.{side_no};
ghost use Rattle.framer.specs.Step.{frame_at};
ghost use Rattle.words.specs.Words.{mode_no, open_no, read_mode, max_or_open_too_big, state_by, read_state, with_state, opened_words, stepped_words, closed_words, frame_words, plain_words, wrong_words, answer_words, report_words};
ghost use Rattle.words.specs.Plainly.{ReadsPlainly};

use claim::Kind;
use framer::Answer;
use state::{Refusal, State};
use taking::{Place, Side};
use window::Mode;

// The numbers for C of a mode, of whether a state is open, and of a side. Of modes and sides no `From` can say them here: neither type is
// this crate's.
fn mode_no(mode: Mode) -> u64
    ensures { result ≡ mode_no mode }
{
    match mode {
        Mode::One(parity) => if parity { 17 } else { 1 },
        Mode::Two(parity) => if parity { 18 } else { 2 },
        Mode::Three(parity) => if parity { 19 } else { 3 },
    }
}

// The mode of a number, if it is one's.
#[tactic(auto, unfolding(window::specs::Pick::pick))]
pub fn read_mode(n: u64) -> Option<Mode>
    ensures { result ≡ read_mode n }
{
    match n {
        1 => Some(Mode::One(false)),
        2 => Some(Mode::Two(false)),
        3 => Some(Mode::Three(false)),
        17 => Some(Mode::One(true)),
        18 => Some(Mode::Two(true)),
        19 => Some(Mode::Three(true)),
        _ => None,
    }
}

fn open_no(open: bool) -> u64
    ensures { result ≡ open_no «open» }
{
    u64::from(open)
}

fn side_no(side: Side) -> u64
    ensures { result ≡ side_no side }
{
    match side {
        Side::Carry => 0,
        Side::Chunk => 1,
    }
}

// What C is answered: the refusal's number, and 0 where there is none. The writer's refusals have their own: one function of both would
// promise by a bound's ghost members what each says by its definition.
pub fn leave_no(leave: Result<(), Refusal>) -> u64
    ensures { result ≡ leave_no leave }
{
    match leave {
        Ok(()) => 0,
        Err(refusal) => refusal.into(),
    }
}

// Whether words are no state's, whatever its mode: MAX over 65,535, open not 0 or 1.
#[tactic(auto, unfolding(window::specs::Pick::pick))]
fn max_or_open_too_big(words: &[u64; 24]) -> bool
    ensures { result ≡ max_or_open_too_big words.now }
{
    65535 < words[1] || 1 < words[6]
}

// The state of a mode that the other words say.
fn state_by(mode: Mode, words: &[u64; 24]) -> State
    requires { slice_index words.now 1 ≤ 65535 }
    ensures { result ≡ state_by mode words.now }
{
    State {
        mode,
        max: words[1] as u16,
        cap: words[2] as usize,
        live: words[3] as usize,
        off: words[4] as usize,
        used: words[5] as usize,
        open: words[6] == 1,
        chunk: words[7] as usize,
        part: words[8] as usize,
    }
}

// The state that words say, if they are one's.
#[tactic(auto, unfolding(crate::specs::Words::read_state, window::specs::Pick::pick))]
pub fn read_state(words: &[u64; 24]) -> Option<State>
    ensures { result ≡ read_state words.now }
{
    if max_or_open_too_big(words) {
        return None;
    }
    let mode = read_mode(words[0])?;
    Some(state_by(mode, words))
}

// The state that words say, where it is open or idle as asked and its mode reads no parity; another is not told.
pub fn read_plain(words: &[u64; 24], open: bool) -> Option<State>
    ensures { ReadsPlainly words.now result }
{
    if words[1] > 65535 {
        return None;
    }
    if words[6] != open_no(open) {
        return None;
    }
    let mode = read_mode(words[0])?;
    if window::has_parity(mode) {
        return None;
    }
    Some(State {
        open,
        ..state_by(mode, words)
    })
}

// A state's nine words; the others stay.
pub fn write_state(s: State, words: &mut [u64; 24])
    ensures { words.new ≡ with_state s words.old }
{
    words[0] = mode_no(s.mode);
    words[1] = s.max as u64;
    words[2] = s.cap as u64;
    words[3] = s.live as u64;
    words[4] = s.off as u64;
    words[5] = s.used as u64;
    words[6] = open_no(s.open);
    words[7] = s.chunk as u64;
    words[8] = s.part as u64;
}

// The words that an opening changes: 4 to 8.
pub fn write_opened(next: State, words: &mut [u64; 24])
    ensures { words.new ≡ opened_words next words.old }
{
    words[4] = next.off as u64;
    words[5] = next.used as u64;
    words[6] = 1;
    words[7] = next.chunk as u64;
    words[8] = next.part as u64;
}

// The words that a step changes: 3, 4, 5 and 8.
pub fn write_stepped(s: State, words: &mut [u64; 24])
    ensures { words.new ≡ stepped_words s words.old }
{
    words[3] = s.live as u64;
    words[4] = s.off as u64;
    words[5] = s.used as u64;
    words[8] = s.part as u64;
}

// The words that a close changes: 3 to 8, with so many bytes kept.
pub fn write_closed(kept: usize, words: &mut [u64; 24])
    ensures { words.new ≡ closed_words kept words.old }
{
    words[3] = kept as u64;
    words[4] = 0;
    words[5] = 0;
    words[6] = 0;
    words[7] = 0;
    words[8] = 0;
}

// An answer that hands out no place: its number, position and two values.
pub fn write_plain(out: &mut [u64; 8], number: u64, at: u64, x: u64, y: u64)
    ensures { out.new ≡ plain_words number at x y }
{
    *out = [number, at, x, y, 0, 0, 0, 0];
}

// A frame: its number, position, class and id, and its place.
fn write_frame(out: &mut [u64; 8], number: u64, at: u64, class: u64, id: u64, place: Place)
    ensures { out.new ≡ frame_words number at class id place }
{
    *out = [
        number,
        at,
        class,
        id,
        side_no(place.side),
        place.start as u64,
        place.len as u64,
        0,
    ];
}

// A wrong sum: its position, the two sums, and class, id and length of the head, apart as an answer has them.
pub fn write_wrong(
    out: &mut [u64; 8],
    at: usize,
    class: u8,
    id: u8,
    n: usize,
    expect: u16,
    got: u16,
)
    ensures { out.new ≡ wrong_words at class id n expect got }
{
    *out = [
        4,
        at as u64,
        expect as u64,
        got as u64,
        class as u64,
        id as u64,
        n as u64,
        0,
    ];
}

// A frame that is handed out: its kind, position and place.
pub fn write_hand(out: &mut [u64; 8], kind: Kind, at: usize, place: Place)
    ensures { out.new ≡ answer_words (frame_at kind at place) }
{
    match kind {
        Kind::Ubx { class, id, .. } => write_frame(
            out,
            1,
            at as u64,
            u64::from(class),
            u64::from(id),
            place,
        ),
        Kind::Rtcm { .. } => write_frame(out, 2, at as u64, 0, 0, place),
        Kind::Sentence { .. } => write_frame(out, 3, at as u64, 0, 0, place),
    }
}

// An answer's eight words.
pub fn write_answer(answer: Answer, out: &mut [u64; 8])
    ensures { out.new ≡ answer_words answer }
{
    match answer {
        Answer::UbxFrame {
            class,
            id,
            at,
            place,
        } => write_frame(out, 1, at as u64, u64::from(class), u64::from(id), place),
        Answer::RtcmFrame { at, place } => write_frame(out, 2, at as u64, 0, 0, place),
        Answer::Sentence { at, place } => write_frame(out, 3, at as u64, 0, 0, place),
        Answer::WrongSum {
            class,
            id,
            n,
            at,
            expect,
            got,
        } => write_wrong(out, at, class, id, n, expect, got),
        Answer::NoRoom { at, size } => write_plain(out, 5, at as u64, size as u64, 0),
        Answer::NeedMore => write_plain(out, 6, 0, 0, 0),
        Answer::Refused(refusal) => write_plain(out, 7, 0, refusal.into(), 0),
        Answer::WrongParity { at, expect, got } => write_plain(
            out,
            8,
            at as u64,
            u64::from(expect),
            u64::from(got),
        ),
    }
}

// A close's sixteen words.
pub fn write_report(out: &mut [u64; 16], number: u64, used: u64, kept: u64, lost: u64)
    ensures { out.new ≡ report_words number used kept lost }
{
    *out = [number, used, kept, lost, 0, 0, 0, 0, 0, 0, 0, 0, 0, 0, 0, 0];
}

// A place of words.
pub fn place_on(side: Side, start: u64, len: u64) -> Place
    ensures { result ≡ record { side = side; start = start; len = len } }
{
    Place {
        side,
        start: start as usize,
        len: len as usize,
    }
}
