// A record's call, made through the C functions, and all that comes back compared with the record: out words, the state's 24 words,
// every byte of the carry.
#![tactic(auto)]

ghost use Rattle.std.specs.Prelude.{◌≡◌, Some, length};
ghost use Rattle.replaying.specs.Replayed.{Replayed};
ghost use Rattle.replaying.specs.Text.{trouble_text};

use calls::Call;
use compare::Difference;
use std::fmt;

// What a list's replay stops at: a call that didn't do as recorded, not a whole record, bytes that are no record's.
#[derive(Clone, Copy)]
pub enum Trouble {
    Differs(Call, Difference),
    Short,
    Bad,
}

impl fmt::Display for Trouble {
    ghost output = { λ trouble. Some (trouble_text trouble) };

    fn fmt<W: fmt::Write>(&self, f: &mut fmt::Formatter<W>) -> fmt::Result {
        match self {
            Trouble::Differs(call, difference) => write!(f, "differs: {call}, {difference}"),
            Trouble::Short => write!(f, "is cut short"),
            Trouble::Bad => write!(f, "is no record"),
        }
    }
}

// What came of a list's next record: a call that did as recorded, or none where the list has no more.
pub type Turn = Result<Option<Call>, Trouble>;

// Makes a record's call and compares.
pub fn replay(
    call: Call,
    words: &[u64; 34],
    carry: &mut [u8],
    chunk: &[u8],
    recorded: &[u8],
) -> Turn
    requires { length carry.old ≡ length recorded.now }
    ensures { Replayed result call words.now carry.old chunk.now recorded.now }
{
    let mut state = records::state_before(words);
    let out = calls::make(call, &mut state, carry, chunk);
    let in_out = compare::out(&out, &records::out(words));
    let in_state = compare::state(&state, &records::state_after(words));
    let in_carry = compare::carry(carry, recorded);
    compare::first(in_out, compare::first(in_state, in_carry)).map_err(
        |difference| Trouble::Differs(call, difference),
    )?;
    Ok(Some(call))
}
