// A record of the lists that oracle/vectors writes, as 34 words in one form for both lists; oracle/README.md has the bytes.
//
//     0         operation
//     1, 2      the lengths of carry and chunk
//     3 to 5    start: mode and MAX; view: side, start and length
//     6 to 14   words 0 to 8 of the state before
//     15 to 23  words 0 to 8 of the state after
//     24 to 31  out
//     32        1 if a byte of the carry changes
//     33        how many bytes follow the record's length word
#![tactic(auto)]

ghost use Rattle.std.specs.Prelude.{◌≡◌, ◌+◌, ◌≤◌};
ghost use Rattle.records.specs.Words.{state_of, out_of};

use std::array;

// calls.bin, refusals.bin. A program names its list, and asks numbers of it, no step: nothing that a closure would say.
#[derive(Clone, Copy)]
pub enum List {
    Calls,
    Refusals,
}

// The bytes of a record's head that say a word: width from at on. Width is 0 for a word that the list hasn't got.
#[derive(Clone, Copy)]
struct Field {
    at: usize,
    width: usize,
    ghost in_head: { at + width ≤ 256 },
}

impl Field {
    // The number in these bytes, little-endian.
    fn number(self, head: &[u8; 256]) -> u64 {
        let bytes = &head[self.at..self.at + self.width];
        bytes
            .iter()
            .rev()
            .fold(0, |n, byte| (n << 8) | u64::from(*byte))
    }
}

// The bytes of a record before those of carry and chunk.
pub fn head_size(list: List) -> usize
    ensures { result ≤ 256 }
{
    match list {
        List::Calls => 66,
        List::Refusals => 256,
    }
}

fn field_of_call(i: usize) -> Field
    ensures { result.at + result.width ≤ 66 }
{
    match i {
        0 => Field { at: 2, width: 1 },
        1 => Field { at: 62, width: 2 },
        2 => Field { at: 64, width: 2 },
        6..=14 => Field {
            at: 4 + (i - 6) * 2,
            width: 2,
        },
        15..=17 => Field {
            at: 4 + (i - 15) * 2,
            width: 2,
        },
        18..=23 => Field {
            at: 22 + (i - 18) * 2,
            width: 2,
        },
        24..=30 => Field {
            at: 34 + (i - 24) * 4,
            width: 4,
        },
        32 => Field { at: 3, width: 1 },
        33 => Field { at: 0, width: 2 },
        _ => Field { at: 0, width: 0 },
    }
}

fn field_of_refusal(i: usize) -> Field {
    if i < 32 {
        Field {
            at: i * 8,
            width: 8,
        }
    } else {
        Field { at: 0, width: 0 }
    }
}

fn field_at(list: List, i: usize) -> Field {
    match list {
        List::Calls => field_of_call(i),
        List::Refusals => field_of_refusal(i),
    }
}

// The words that a record's head says.
pub fn words(list: List, head: &[u8; 256]) -> [u64; 34] {
    array::from_fn(|i| field_at(list, i).number(head))
}

// Whether a byte of the carry changes.
pub fn changes(words: &[u64; 34]) -> bool {
    words[32] == 1
}

// Whether as many bytes follow the length word as carry and chunk have, and the carry once more if it changes. A record
// of refusals.bin doesn't say.
pub fn agrees(list: List, words: &[u64; 34]) -> bool {
    let plain = words[1].wrapping_add(words[2]).wrapping_add(64);
    match (list, words[32]) {
        (List::Refusals, _) => true,
        (List::Calls, 0) => words[33] == plain,
        (List::Calls, 1) => words[33] == plain.wrapping_add(words[1]),
        (List::Calls, _) => false,
    }
}

// Words 9 to 23 of a state, which the record hasn't got: they are put there before, and are to be there after.
const KEPT: [u64; 15] = [
    109, 110, 111, 112, 113, 114, 115, 116, 117, 118, 119, 120, 121, 122, 123,
];

// A state's words: 0 to 8 are the record's from word n on.
fn state(words: &[u64; 34], n: usize) -> [u64; 24]
    requires { n ≤ 25 }
    ensures { result ≡ state_of words.now n }
{
    let mut state = [0; 24];
    state[..9].copy_from_slice(&words[n..n + 9]);
    state[9..].copy_from_slice(&KEPT);
    state
}

pub fn state_before(words: &[u64; 34]) -> [u64; 24]
    ensures { result ≡ state_of words.now 6 }
{
    state(words, 6)
}

pub fn state_after(words: &[u64; 34]) -> [u64; 24]
    ensures { result ≡ state_of words.now 15 }
{
    state(words, 15)
}

// The out words that are recorded: eight, then 0.
pub fn out(words: &[u64; 34]) -> [u64; 16]
    ensures { result ≡ out_of words.now }
{
    let mut out = [0; 16];
    out[..8].copy_from_slice(&words[24..32]);
    out
}
