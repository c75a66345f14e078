// The words in which a writer's state crosses to C. include/orgnevis.h says which word is what.
// They are read and stored by functions, not by From: a writer and an array of words are both of other crates.
#![tactic(auto)]

ghost use Rattle.std.specs.Prelude.{◌≡◌};
ghost use Rattle.writer_words.specs.Words.{with_writer, writer_by};

use writer_state::Writer;

// The writer that words say.
pub fn read_writer(words: &[u64; 8]) -> Writer
    ensures { result ≡ writer_by words.now }
{
    Writer {
        room: words[0] as usize,
        len: words[1] as usize,
        written: words[2] as usize,
    }
}

// A writer's three words; the others stay.
pub fn write_writer(w: Writer, words: &mut [u64; 8])
    ensures { words.new ≡ with_writer w words.old }
{
    words[0] = w.room as u64;
    words[1] = w.len as u64;
    words[2] = w.written as u64;
}
