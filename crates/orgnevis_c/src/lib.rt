// The static library: the functions of orgnevis as C calls them. include/orgnevis.h documents them. Each promises what the function
// that it calls does.
#![tactic(auto)]

ghost use Rattle.std.specs.Prelude.{◌≡◌, length};
ghost use Rattle.writer_state.specs.Refusals.{leave_no};
ghost use Rattle.writer.specs.Writing.{polling};
ghost use Rattle.orgnevis.specs.Calls.{starts, opens, steps, closes, views};
ghost use Rattle.orgnevis.specs.Writes.{begins, adds, finishes};

use orgnevis::writes;

// A fresh parser. Answers 0, 1, or 8 for a mode's number that isn't one, which writes nothing.
#[unsafe(no_mangle)]
pub extern "C" fn orgnevis_start(state: &mut [u64; 24], carry: &[u8], mode: u64, max: u16) -> u64
    ensures value { result ≡ (starts state.old (length carry.now) mode max).number }
    ensures state_after { state.new ≡ (starts state.old (length carry.now) mode max).words }
{
    orgnevis::orgnevis_start(state, carry, mode, max)
}

// Opens an idle state on a chunk. Answers 0, 2, 3 or 5.
#[unsafe(no_mangle)]
pub extern "C" fn orgnevis_open(state: &mut [u64; 24], carry: &[u8], chunk: &[u8]) -> u64
    ensures value { result ≡ (opens state.old carry.now chunk.now).number }
    ensures state_after { state.new ≡ (opens state.old carry.now chunk.now).words }
{
    orgnevis::orgnevis_open(state, carry, chunk)
}

// The next answer of an open state. Refusals 2, 4 and 6.
#[unsafe(no_mangle)]
pub extern "C" fn orgnevis_step(
    state: &mut [u64; 24],
    carry: &mut [u8],
    chunk: &[u8],
    out: &mut [u64; 8],
)
    ensures state_after { state.new ≡ (steps state.old carry.old chunk.now).words }
    ensures out_after { out.new ≡ (steps state.old carry.old chunk.now).out }
    ensures carry_after { carry.new ≡ (steps state.old carry.old chunk.now).carry }
{
    orgnevis::orgnevis_step(state, carry, chunk, out)
}

// Closes an open state. Refusals 2, 4 and 6.
#[unsafe(no_mangle)]
pub extern "C" fn orgnevis_close(
    state: &mut [u64; 24],
    carry: &mut [u8],
    chunk: &[u8],
    out: &mut [u64; 16],
)
    ensures state_after { state.new ≡ (closes state.old carry.old chunk.now).words }
    ensures out_after { out.new ≡ (closes state.old carry.old chunk.now).out }
    ensures carry_after { carry.new ≡ (closes state.old carry.old chunk.now).carry }
{
    orgnevis::orgnevis_close(state, carry, chunk, out)
}

// Whether a place lies within its side: 0, or 7.
#[unsafe(no_mangle)]
pub extern "C" fn orgnevis_view(carry: &[u8], chunk: &[u8], side: u64, start: u64, len: u64) -> u64
    ensures { result ≡ views (length carry.now) (length chunk.now) side start len }
{
    orgnevis::orgnevis_view(carry, chunk, side, start, len)
}

// Begins a frame with a payload of `len` bytes. Answers 0, 1 or 2; refused, the words are those of a bad state.
#[unsafe(no_mangle)]
pub extern "C" fn orgnevis_begin(
    words: &mut [u64; 8],
    memory: &mut [u8],
    class: u8,
    id: u8,
    len: u64,
) -> u64
    ensures value { result ≡ (begins words.old memory.old class id len).number }
    ensures words_after { words.new ≡ (begins words.old memory.old class id len).words }
    ensures memory_after { memory.new ≡ (begins words.old memory.old class id len).memory }
{
    writes::orgnevis_begin(words, memory, class, id, len)
}

// Writes the next piece of the payload. Answers 0, 3 or 4.
#[unsafe(no_mangle)]
pub extern "C" fn orgnevis_piece(words: &mut [u64; 8], memory: &mut [u8], bytes: &[u8]) -> u64
    ensures value { result ≡ (adds words.old memory.old bytes.now).number }
    ensures words_after { words.new ≡ (adds words.old memory.old bytes.now).words }
    ensures memory_after { memory.new ≡ (adds words.old memory.old bytes.now).memory }
{
    writes::orgnevis_piece(words, memory, bytes)
}

// Writes the sum behind the payload. Answers 0, 3 or 5.
#[unsafe(no_mangle)]
pub extern "C" fn orgnevis_finish(words: &mut [u64; 8], memory: &mut [u8]) -> u64
    ensures value { result ≡ (finishes words.old memory.old).number }
    ensures words_after { words.new ≡ (finishes words.old memory.old).words }
    ensures memory_after { memory.new ≡ (finishes words.old memory.old).memory }
{
    writes::orgnevis_finish(words, memory)
}

// Writes the MON-VER poll. Answers 0 or 2.
#[unsafe(no_mangle)]
pub extern "C" fn orgnevis_poll(memory: &mut [u8]) -> u64
    ensures value { result ≡ leave_no (polling memory.old).leave }
    ensures memory_after { memory.new ≡ (polling memory.old).memory }
{
    writes::orgnevis_poll(memory)
}
