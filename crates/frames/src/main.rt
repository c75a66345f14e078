// Lists a capture by mode and MAX: UBX frames, RTCM frames, with parity or without, sentences, wrong sums, wrong parities and no
// room. C is 16,384.
#![tactic(auto)]

ghost use Rattle.std.specs.Prelude.{◌≡◌, true, ◌≤◌, ◌↔◌};
ghost use Rattle.frames.specs.Words.{next_of, number_of, mode_of, max_at, parity_word};

use std::env::FillError;
use std::io::Read;
use std::rt::{Env, Runtime};
use std::{fs, io, str};
use window::Mode;

// The longest path of Linux, and the numbers of its errors where an argument is longer, or no text.
const PATH_MAX: usize = 4096;

const ENAMETOOLONG: i32 = 36;

const EILSEQ: i32 = 84;

const HELP: &str = "frames MODE [parity] MAX FILE: a line for each frame of a capture

  MODE    1: UBX. 2: UBX and RTCM. 3: UBX, RTCM and NMEA
  parity  RTCM frames are read with their parity, and checked by it; without, they end before it
  MAX     0 to 65535: a UBX frame whose payload is longer is passed over silently
  FILE    the capture; - is standard input

  at P ubx CC II len N           a UBX frame at byte P: class, id, payload length
  at P rtcm len N                an RTCM frame, N its message's length
  at P nmea len N                a sentence, N its length with CR LF
  at P sum expect XXXX got XXXX ubx CC II len N
                                 a UBX frame whose sum is wrong: the sum received, the sum computed
  at P parity expect XXXXXX got XXXXXX
                                 an RTCM frame whose parity is wrong: the parity received, the parity computed
  at P room N                    N bytes that the carry's 16384 do not hold

The first line has mode, setting, MAX and the carry's length; the last the bytes used, kept and lost.
";

// The number with one more digit: no digit, or a number over 65,535, is none.
#[tactic(auto, unfolding(crate::specs::Words::next_of, window::specs::Pick::pick))]
fn next(n: u16, d: u8) -> Option<u16>
    ensures { result ≡ next_of n d }
{
    if !d.is_ascii_digit() {
        return None;
    }
    n.checked_mul(10)?.checked_add(u16::from(d - b'0'))
}

// A number from 0 to 65,535 in decimal digits.
#[tactic(auto, using(crate::proofs::Laws::none_stays, crate::proofs::Laws::one_more, crate::proofs::Laws::at_end))]
fn read_number(s: &[u8]) -> Option<u16>
    ensures { result ≡ number_of s.now }
{
    if s.is_empty() {
        return None;
    }
    let mut n = 0;
    for d in s {
        n = next(n, *d)?;
    }
    Some(n)
}

#[tactic(auto, unfolding(window::specs::Pick::pick))]
fn mode_of(number: Option<u16>, parity: bool) -> Option<Mode>
    ensures { result ≡ mode_of number parity }
{
    match number? {
        1 => Some(Mode::One(parity)),
        2 => Some(Mode::Two(parity)),
        3 => Some(Mode::Three(parity)),
        _ => None,
    }
}

// Whether a word is the one that has RTCM frames read with parity.
fn is_parity(s: &[u8]) -> bool
    ensures { (result ≡ true) ↔ (s.now ≡ parity_word) }
{
    s == b"parity".as_slice()
}

// Which argument MAX is.
fn max_at(parity: bool) -> usize
    ensures value { result ≡ max_at parity }
    ensures upper_bound { result ≤ 3 }
{
    if parity { 3 } else { 2 }
}

// The number that an argument says. One that is missing, or longer than any number here, says none.
fn word(rt: &impl Env, i: usize) -> Option<u16> {
    let mut text = [0u8; 16];
    let n = rt.arg(i, &mut text).ok()?;
    read_number(&text[..n])
}

// Whether the second argument is the word `parity`. It is not one function with is_help: a test passed as a closure needs a
// `requires` that it can always be called, and a type parameter for that.
fn has_parity(rt: &impl Env) -> bool {
    let mut text = [0u8; 16];
    match rt.arg(2, &mut text) {
        Ok(n) => is_parity(&text[..n]),
        Err(_) => false,
    }
}

fn is_help(rt: &impl Env) -> bool {
    let mut text = [0u8; 4];
    match rt.arg(1, &mut text) {
        Ok(n) => &text[..n] == b"help".as_slice(),
        Err(_) => false,
    }
}

// Whether there is an argument of that place.
fn is_given(rt: &impl Env, i: usize) -> bool {
    let mut text = [0u8; 1];
    !matches!(rt.arg(i, &mut text), Err(FillError::NotPresent))
}

fn help(rt: &impl Print) {
    let _ = rt.print(HELP);
}

fn refuse(rt: &impl Eprint, why: &str) {
    let _ = eprintln!(rt; "{why}; frames help says more");
}

fn list(rt: &(impl Print + Eprint), input: &mut impl Read, name: &[u8], mode: Mode, max: u16) {
    let mut carry = [0u8; 16384];
    let mut chunk = [0u8; 16384];
    let mut out = [0u8; 65536];
    lister::list(
        rt, input, name, mode, max, true, &mut carry, &mut chunk, &mut out,
    );
}

// A file, or standard input where the path is `-`.
fn list_path(rt: &impl Runtime, path: &str, mode: Mode, max: u16) {
    if path == "-" {
        list(rt, &mut rt.reader(), b"standard input", mode, max);
        return;
    }
    match fs::open(rt, path) {
        Ok(mut file) => list(rt, &mut file, path.as_bytes(), mode, max),
        Err(why) => edge::fail(rt, path.as_bytes(), why),
    }
}

// The argument at `at`: a file, or `-`.
fn list_file(rt: &impl Runtime, at: usize, mode: Mode, max: u16) {
    let mut text = [0u8; PATH_MAX];
    let Ok(n) = rt.arg(at, &mut text) else {
        edge::fail(rt, b"FILE", io::Error::from_raw_os_error(ENAMETOOLONG));
        return;
    };
    let Ok(path) = str::from_utf8(&text[..n]) else {
        edge::fail(rt, &text[..n], io::Error::from_raw_os_error(EILSEQ));
        return;
    };
    list_path(rt, path, mode, max);
}

fn main(rt: HostRuntime) {
    if is_help(&rt) {
        help(&rt);
        return;
    }
    let parity = has_parity(&rt);
    let at = max_at(parity);
    if !is_given(&rt, at + 1) || is_given(&rt, at + 2) {
        refuse(
            &rt,
            "frames takes MODE, MAX and FILE, and the word parity behind MODE where it is wanted",
        );
        return;
    }
    let Some(mode) = mode_of(word(&rt, 1), parity) else {
        refuse(&rt, "MODE is 1, 2 or 3");
        return;
    };
    let Some(max) = word(&rt, at) else {
        refuse(&rt, "MAX is 0 to 65535");
        return;
    };
    list_file(&rt, at + 1, mode, max);
}
