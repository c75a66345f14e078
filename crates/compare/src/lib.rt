// What came back beside what is recorded.
#![tactic(auto)]

ghost use Rattle.std.specs.Prelude.{◌≡◌, true, Some, length};
ghost use Rattle.compare.specs.Compare.{Tells, Both};
ghost use Rattle.compare.specs.Text.{part_text, difference_text};

use std::fmt;

#[derive(Clone, Copy)]
pub enum Part {
    Out,
    State,
    Carry,
}

impl fmt::Display for Part {
    ghost output = { λ part. Some (part_text part) };

    fn fmt<W: fmt::Write>(&self, f: &mut fmt::Formatter<W>) -> fmt::Result {
        match self {
            Part::Out => write!(f, "out word"),
            Part::State => write!(f, "state word"),
            Part::Carry => write!(f, "carry byte"),
        }
    }
}

// A word or byte that differs: which one of its part, what it is and what is recorded.
#[derive(Clone, Copy)]
pub struct Difference {
    pub part: Part,
    pub at: usize,
    pub is: u64,
    pub recorded: u64,
}

impl fmt::Display for Difference {
    ghost output = { λ difference. Some (difference_text difference) };

    fn fmt<W: fmt::Write>(&self, f: &mut fmt::Formatter<W>) -> fmt::Result {
        let Difference {
            part,
            at,
            is,
            recorded,
        } = *self;
        write!(f, "{part} {at} is {is}, recorded {recorded}")
    }
}

// The first item that differs, of lists of one length. Of an item, equal is the same.
fn items<T: Copy + Eq + Into<u64>>(part: Part, got: &[T], recorded: &[T]) -> Result<(), Difference>
    requires same { (x y : T) → T.eq x y ≡ true → x ≡ y }
    requires one_length { length got.now ≡ length recorded.now }
    ensures { Tells result got.now recorded.now }
{
    for (at, (&is, &told)) in got.iter().zip(recorded).enumerate() {
        if is != told {
            return Err(Difference {
                part,
                at,
                is: is.into(),
                recorded: told.into(),
            });
        }
    }
    Ok(())
}

pub fn out(got: &[u64; 16], recorded: &[u64; 16]) -> Result<(), Difference>
    ensures { Tells result got.now recorded.now }
{
    items(Part::Out, got, recorded)
}

pub fn state(got: &[u64; 24], recorded: &[u64; 24]) -> Result<(), Difference>
    ensures { Tells result got.now recorded.now }
{
    items(Part::State, got, recorded)
}

// The first byte of the carry that differs.
pub fn carry(got: &[u8], recorded: &[u8]) -> Result<(), Difference>
    requires { length got.now ≡ length recorded.now }
    ensures { Tells result got.now recorded.now }
{
    items(Part::Carry, got, recorded)
}

// Of two outcomes the first that differs.
pub fn first(one: Result<(), Difference>, other: Result<(), Difference>) -> Result<(), Difference>
    ensures { Both result one other }
{
    one.and(other)
}
