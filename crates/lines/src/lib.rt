// The lines of the listing's answers. Each is put into a lent buffer behind what is there.
#![tactic(auto)]

ghost use Rattle.std.specs.Prelude.{◌≡◌, ◌+◌, ◌-◌, ◌≤◌, length};
ghost use Rattle.text.specs.Adds.{Adds};
ghost use Rattle.lines.specs.Lines.{line};

use framer::Answer;
use text::Lines;
use window::Mode;

// The longest line: `at P sum expect XXXX got XXXX ubx CC II len N` with two numbers of 20 digits, and its line end.
pub const LONGEST: usize = 84;

// n - k, and 0 where that is less than 0.
fn less(n: usize, k: usize) -> u64
    ensures { result ≡ n - k }
{
    n.saturating_sub(k) as u64
}

// An answer's line, where the parser is of this mode and earlier closes reported `before` bytes as used. Need more and refusals
// have none. A wrong sum's has class, id and length of its frame where it is to be `named`.
pub fn line(lines: &mut Lines, named: bool, mode: Mode, before: u64, said: Answer)
    requires { lines.old.len + 84 ≤ length lines.old.out.now }
    ensures { Adds (line named mode before said) lines.old lines.new }
{
    match said {
        Answer::UbxFrame {
            class,
            id,
            at: p,
            place,
        } => {
            lines.here(before, p);
            line_parts::ubx(lines, class, id, less(place.len, 2));
        }
        Answer::RtcmFrame { at: p, place } => {
            let n = less(place.len, claim::around(window::has_parity(mode)));
            line_parts::placed(lines, before, p, b" rtcm len ", n);
        }
        Answer::Sentence { at: p, place } => {
            line_parts::placed(lines, before, p, b" nmea len ", place.len as u64);
        }
        Answer::WrongSum {
            class,
            id,
            n,
            at: p,
            expect,
            got,
        } => {
            lines.here(before, p);
            line_parts::wrong(lines, named, class, id, n, expect, got);
        }
        Answer::NoRoom { at: p, size } => {
            line_parts::placed(lines, before, p, b" room ", size as u64);
        }
        Answer::NeedMore => {}
        Answer::Refused(_) => {}
        Answer::WrongParity { at: p, expect, got } => {
            line_parts::wrong_parity(lines, before, p, expect, got);
        }
    }
}
