// Stamps that never run back: NAV-TIMEUTC frames read to nanoseconds since 1970, over the framer's answers.
#![tactic(auto)]

ghost use Rattle.std.specs.Prelude.{◌≡◌, ℕ, true, ◌<◌, length, Option};
ghost use Rattle.taking.specs.View.{view};
ghost use Rattle.stamp.specs.Message.{is_this, fields_of, is_valid, in_range};
ghost use Rattle.stamp.specs.Stamp.{stamp_of, hand, read, heard_of};
ghost use Rattle.stamp.specs.Step.{payload_of, tells, step};
ghost use Rattle.stamp.specs.Promises.{Reads, Times};

use framer::Answer;
use state::State;

// NAV-TIMEUTC.
const CLASS: u8 = 0x01;

const ID: u8 = 0x21;

const LENGTH: usize = 20;

// A second in nanoseconds; a payload's nanoseconds lie within it either way.
const SECOND: u64 = 1_000_000_000;

// The three refusals, in their order.
#[derive(Clone, Copy)]
pub enum Fault {
    NotThisMessage,
    NotValid,
    Field,
}

// What a frame that is not refused is read to: a stamp, handed out; or how far one would be below the last, in nanoseconds.
#[derive(Clone, Copy)]
pub enum Reading {
    Stamp(u64),
    BackBy(u64),
}

// A frame's reading, or its refusal; and the clock after it, which is the last stamp handed out, if any. A clock of any value is
// taken.
#[derive(Clone, Copy)]
pub struct Heard {
    pub reading: Result<Reading, Fault>,
    pub clock: Option<u64>,
}

// A step's answer and next state; what it told, which is nothing where it handed out no UBX frame; and the clock after it.
#[derive(Clone, Copy)]
pub struct Timed {
    pub answer: Answer,
    pub told: Option<Result<Reading, Fault>>,
    pub clock: Option<u64>,
    pub state: State,
}

// What an answer told, and the clock after it.
#[derive(Clone, Copy)]
struct News {
    told: Option<Result<Reading, Fault>>,
    clock: Option<u64>,
}

// A payload's fields; its nanoseconds are signed.
#[derive(Clone, Copy)]
struct Fields {
    nano: i64,
    year: u64,
    month: u64,
    day: u64,
    hour: u64,
    minute: u64,
    second: u64,
    flags: u64,
}

// The fields of a whole payload, as they lie in it.
fn fields_of(payload: &[u8]) -> Fields
    requires { length payload.now ≡ 20 }
    ensures { result ≡ fields_of payload.now }
{
    Fields {
        nano: i64::from(i32::from_le_bytes([payload[8], payload[9], payload[10], payload[11]])),
        year: u64::from(u16::from_le_bytes([payload[12], payload[13]])),
        month: u64::from(payload[14]),
        day: u64::from(payload[15]),
        hour: u64::from(payload[16]),
        minute: u64::from(payload[17]),
        second: u64::from(payload[18]),
        flags: u64::from(payload[19]),
    }
}

// NAV-TIMEUTC, by class, id and the payload's length.
#[tactic(auto, unfolding(crate::specs::Message::is_this))]
fn is_this(class: u8, id: u8, len: usize) -> bool
    ensures { result ≡ is_this class id len }
{
    class == CLASS && id == ID && len == LENGTH
}

// Bit 2 of the flags.
fn is_valid(f: Fields) -> bool
    ensures { result ≡ is_valid f }
{
    f.flags / 4 % 2 == 1
}

// Whether every field is in its range.
#[tactic(auto, unfolding(crate::specs::Message::in_range))]
fn in_range(f: Fields) -> bool
    ensures { result ≡ in_range f }
{
    calendar::is_date(f.year, f.month, f.day)
        && calendar::is_time(f.hour, f.minute, f.second)
        && calendar::within(0, SECOND, f.nano.unsigned_abs())
}

// Nanoseconds since 1970.
#[tactic(auto, using(crate::proofs::Ranges::ranged, crate::proofs::Ranges::days_bound), unfolding(crate::specs::Stamp::stamp_of, crate::specs::Stamp::seconds, window::specs::Pick::pick))]
fn stamp_of(f: Fields) -> u64
    requires { in_range f ≡ true }
    ensures { result ≡ stamp_of f }
{
    let days = calendar::day_number(f.year, f.month, f.day);
    let whole = calendar::seconds_at(days, f.hour, f.minute, f.second) * SECOND;
    if f.nano < 0 {
        whole - f.nano.unsigned_abs()
    } else {
        whole + f.nano.unsigned_abs()
    }
}

// A stamp is handed out unless it is below the last; that one stays then.
#[tactic(auto, unfolding(window::specs::Pick::pick))]
fn hand(clock: Option<u64>, t: u64) -> Heard
    ensures { result ≡ hand clock t }
{
    match clock {
        Some(last) if t < last => Heard {
            reading: Ok(Reading::BackBy(last - t)),
            clock: Some(last),
        },
        _ => Heard {
            reading: Ok(Reading::Stamp(t)),
            clock: Some(t),
        },
    }
}

// A payload's stamp, or 02's refusals in their order: what any clock reads of it.
#[tactic(auto, using(crate::proofs::Outcomes::read_other, crate::proofs::Outcomes::read_invalid, crate::proofs::Outcomes::read_outside, crate::proofs::Outcomes::read_hands, crate::proofs::Ranges::this_length))]
fn stamp_in(class: u8, id: u8, payload: &[u8]) -> Result<u64, Fault>
    ensures { (clock : Option ℕ) → read clock class id payload.now ≡ heard_of clock result }
{
    if !is_this(class, id, payload.len()) {
        return Err(Fault::NotThisMessage);
    }
    let f = fields_of(payload);
    if !is_valid(f) {
        return Err(Fault::NotValid);
    }
    if !in_range(f) {
        return Err(Fault::Field);
    }
    Ok(stamp_of(f))
}

// One frame's payload, read after those that the clock knows. On a refusal the last stamp stays.
pub fn read(clock: Option<u64>, class: u8, id: u8, payload: &[u8]) -> Heard
    ensures { Reads (read clock class id payload.now) result }
{
    match stamp_in(class, id, payload) {
        Ok(t) => hand(clock, t),
        Err(fault) => Heard {
            reading: Err(fault),
            clock,
        },
    }
}

// A body without its two check bytes.
fn payload_of(body: &[u8]) -> &[u8]
    ensures { result.now ≡ payload_of body.now }
{
    &body[..body.len().saturating_sub(2)]
}

// What an answer tells: a UBX frame's payload is read.
fn tell<'a>(clock: Option<u64>, carry: &'a [u8], chunk: &'a [u8], answer: Answer) -> News
    ensures { result ≡ tells clock (view carry.now chunk.now) answer }
{
    let Answer::UbxFrame {
        class,
        id,
        place,
        ..
    } = answer
    else {
        return News { told: None, clock };
    };
    let heard = read(
        clock,
        class,
        id,
        payload_of(taking::view(carry, chunk, place)),
    );
    News {
        told: Some(heard.reading),
        clock: heard.clock,
    }
}

// A step of the framer; the payload of a UBX frame that it hands out is read.
pub fn step(clock: Option<u64>, s: State, carry: &mut [u8], chunk: &[u8]) -> Timed
    ensures { Times (step clock s carry.old chunk.now) result carry.new }
{
    let stepped = framer::step(s, carry, chunk);
    let news = tell(clock, carry, chunk, stepped.answer);
    Timed {
        answer: stepped.answer,
        told: news.told,
        clock: news.clock,
        state: stepped.state,
    }
}
