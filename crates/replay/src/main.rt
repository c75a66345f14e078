// Replays the two lists of calls that oracle/vectors writes, through the five C functions, and compares all that comes
// back: out words, the state's 24 words, every byte of the carry. Says how many calls it compared, or the first that
// differs and stops there. oracle/README.md has the form of the lists.
#![tactic(auto)]

mod report;

ghost use Rattle.std.specs.Prelude.{◌≡◌, ◌≤◌, length};

use records::List;
use replaying::{Trouble, Turn};
use report::Tally;
use std::fs;
use std::io::Read;
use std::rt::Files;

// No carry and no chunk of a record is longer.
const LONGEST: usize = 16385;

// Every byte of the carries and chunks of refusals.bin.
const FILLER: u8 = 0x55;

// Where a record's carry and chunk are, and the carry that is recorded.
#[derive(Drop)]
struct Memory {
    carry: [u8; LONGEST],
    chunk: [u8; LONGEST],
    recorded: [u8; LONGEST],
}

// Reads until `to` is full, the file ends or a read fails: how many bytes that gave, which `read_exact` doesn't say.
fn read_full(file: &mut impl Read, to: &mut [u8]) -> usize
    ensures { result ≤ length to.new }
{
    let mut got = 0;
    while got < to.len() {
        match file.read(&mut to[got..]) {
            Ok(0) | Err(_) => break,
            Ok(n) => got += n,
        }
    }
    got
}

// Reads a list's next bytes into a carry or chunk. Those of refusals.bin are not in the file: they are in memory from the
// beginning and stay there.
fn fill(file: &mut impl Read, list: List, to: &mut [u8]) -> Result<(), Trouble> {
    match list {
        List::Calls if read_full(file, to) < to.len() => Err(Trouble::Short),
        List::Calls | List::Refusals => Ok(()),
    }
}

// Reads the bytes behind a record's head and replays it. `recorded` has the carry before, then the carry after, which the
// list has where a byte of the carry changes.
fn replay_rest(
    file: &mut impl Read,
    list: List,
    words: &[u64; 34],
    carry: &mut [u8],
    chunk: &mut [u8],
    recorded: &mut [u8],
) -> Turn
    requires { length carry.old ≡ length recorded.old }
{
    let call = calls::of(words).ok_or(Trouble::Bad)?;
    fill(file, list, recorded)?;
    carry.copy_from_slice(recorded);
    fill(file, list, chunk)?;
    if records::changes(words) {
        fill(file, list, recorded)?;
    }
    replaying::replay(call, words, carry, chunk, recorded)
}

// Replays the record of a head. The three are no `Memory` here: slices of fields behind one `&mut` get no proof.
fn replay_record(
    file: &mut impl Read,
    list: List,
    words: &[u64; 34],
    carry: &mut [u8],
    chunk: &mut [u8],
    recorded: &mut [u8],
) -> Turn {
    let c = words[1] as usize;
    let k = words[2] as usize;
    let has_room = c <= carry.len() && k <= chunk.len() && c <= recorded.len();
    if !has_room || !records::agrees(list, words) {
        return Err(Trouble::Bad);
    }
    replay_rest(
        file,
        list,
        words,
        &mut carry[..c],
        &mut chunk[..k],
        &mut recorded[..c],
    )
}

// Reads the head of a list's next record and replays it.
fn replay_next(file: &mut impl Read, list: List, memory: &mut Memory) -> Turn {
    let mut head = [0; 256];
    let size = records::head_size(list);
    let got = read_full(file, &mut head[..size]);
    if got == 0 {
        return Ok(None);
    }
    if got < size {
        return Err(Trouble::Short);
    }
    let words = records::words(list, &head);
    let Memory {
        carry,
        chunk,
        recorded,
    } = memory;
    replay_record(file, list, &words, carry, chunk, recorded)
}

// Replays a list up to its end or the first trouble, and counts the calls that did as recorded. Nothing says that a file
// ends: the turns are counted, up to a number that no list comes to.
fn replay_all(
    file: &mut impl Read,
    list: List,
    memory: &mut Memory,
    tally: &mut Tally,
) -> Result<(), Trouble> {
    for _ in 0..u64::MAX {
        match replay_next(file, list, memory)? {
            Some(call) => tally.count(call),
            None => return Ok(()),
        }
    }
    Err(Trouble::Bad)
}

// Replays the list of that name: whether it came to the list's end.
fn replay_list(rt: &(impl Files + Print), name: &str, list: List) -> bool {
    let Ok(mut file) = fs::open(rt, name) else {
        let _ = println!(rt; "{name}: can't be opened");
        return false;
    };
    let mut memory = Memory {
        carry: [FILLER; LONGEST],
        chunk: [FILLER; LONGEST],
        recorded: [FILLER; LONGEST],
    };
    let mut tally = Tally::default();
    let end = replay_all(&mut file, list, &mut memory, &mut tally);
    report::say_run(rt, name, tally, end)
}

fn main(rt: HostRuntime) {
    if replay_list(&rt, "calls.bin", List::Calls) {
        replay_list(&rt, "refusals.bin", List::Refusals);
    }
}
