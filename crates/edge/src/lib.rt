// The edge of a program: a chunk read, lines written to standard output, and what fails there told on standard error.
#![tactic(auto)]

ghost use Rattle.std.specs.Prelude.{◌≤◌, length, take};
ghost use Rattle.std.specs.Io.KnownBytes.{Consumes};

use std::io::{Cursor, Read, Write};
use std::{io, str};

// Puts the system's words for an error to the front of the text: how many bytes they are. Behind them stands the error's number, in
// brackets, where it has one.
fn put(why: &io::Error, text: &mut [u8]) -> usize
    ensures { result ≤ length text.new }
{
    let mut out = Cursor::new(&mut text[..]);
    let _ = write!(out, "{why}");
    let end = (out.position() as usize).min(text.len());
    if why.raw_os_error().is_none() {
        return end;
    }
    text[..end]
        .iter()
        .rposition(|&b| b == b'(')
        .map_or(end, |at| at.saturating_sub(1))
}

// Says on standard error what failed, and why. A name that is no text is told as `escape_ascii` writes it.
pub fn fail(rt: &impl Eprint, name: &[u8], why: io::Error) {
    let mut text = [0u8; 256];
    let n = put(&why, &mut text);
    let words = str::from_utf8(&text[..n]).unwrap_or("");
    let _ = match str::from_utf8(name) {
        Ok(name) => eprintln!(rt; "{name}: {words}"),
        Err(_) => eprintln!(rt; "{}: {words}", name.escape_ascii()),
    };
}

// One read, to the front of the chunk: how many bytes it gave, which are those that the input no longer has. It gives 0 where the
// input has ended, and where the read fails, which is told with the input's name.
pub fn read<R: Read>(rt: &impl Eprint, input: &mut R, name: &[u8], chunk: &mut [u8]) -> usize
    ensures in_bounds { result ≤ length chunk.new }
    ensures bytes { Consumes (R.remaining input.old) (R.remaining input.new) (take result chunk.new) }
{
    match input.read(chunk) {
        Ok(n) => n,
        Err(why) => {
            fail(rt, name, why);
            0
        }
    }
}

// Writes lines to standard output: whether all were taken. A write that fails is told.
pub fn write(rt: &(impl Print + Eprint), lines: &[u8]) -> bool {
    match rt.write_all(lines) {
        Ok(()) => true,
        Err(why) => {
            fail(rt, b"standard output", why);
            false
        }
    }
}
