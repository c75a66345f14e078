// The writer for C: four functions over eight words and lent bytes. include/orgnevis.h documents them, and orgnevis_c exports them.
ghost use Rattle.std.specs.Prelude.{◌≡◌};
ghost use Rattle.writer_state.specs.Refusals.{leave_no};
ghost use Rattle.writer.specs.Writing.{polling};
ghost use Rattle.writer_words.specs.Words.{with_writer};
ghost use Rattle.orgnevis.specs.Writes.{begins, adds, finishes};

use writer::Written;

// The number of a call of the writer, whose next state goes into the words.
fn answer(words: &mut [u64; 8], done: Written) -> u64
    ensures value { result ≡ leave_no done.leave }
    ensures words_after { words.new ≡ with_writer done.state words.old }
{
    writer_words::write_writer(done.state, words);
    writer_state::leave_no(done.leave)
}

// Begins a frame with a payload of `len` bytes. Answers 0, 1 or 2; refused, the words are those of a bad state.
pub fn orgnevis_begin(words: &mut [u64; 8], memory: &mut [u8], class: u8, id: u8, len: u64) -> u64
    ensures value { result ≡ (begins words.old memory.old class id len).number }
    ensures words_after { words.new ≡ (begins words.old memory.old class id len).words }
    ensures memory_after { memory.new ≡ (begins words.old memory.old class id len).memory }
{
    answer(words, writer::begin(memory, class, id, len as usize))
}

// Writes the next piece of the payload. Answers 0, 3 or 4.
pub fn orgnevis_piece(words: &mut [u64; 8], memory: &mut [u8], bytes: &[u8]) -> u64
    ensures value { result ≡ (adds words.old memory.old bytes.now).number }
    ensures words_after { words.new ≡ (adds words.old memory.old bytes.now).words }
    ensures memory_after { memory.new ≡ (adds words.old memory.old bytes.now).memory }
{
    let added = writer::piece(writer_words::read_writer(words), memory, bytes);
    answer(words, added)
}

// Writes the sum behind the payload. Answers 0, 3 or 5.
pub fn orgnevis_finish(words: &mut [u64; 8], memory: &mut [u8]) -> u64
    ensures value { result ≡ (finishes words.old memory.old).number }
    ensures words_after { words.new ≡ (finishes words.old memory.old).words }
    ensures memory_after { memory.new ≡ (finishes words.old memory.old).memory }
{
    let finished = writer::finish(writer_words::read_writer(words), memory);
    answer(words, finished)
}

// Writes the MON-VER poll. Answers 0 or 2.
pub fn orgnevis_poll(memory: &mut [u8]) -> u64
    ensures value { result ≡ leave_no (polling memory.old).leave }
    ensures memory_after { memory.new ≡ (polling memory.old).memory }
{
    writer_state::leave_no(writer::poll(memory))
}
