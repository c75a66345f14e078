// The listing's two ends: its first line and its last. Each is put into a lent buffer behind what is there.
#![tactic(auto)]

ghost use Rattle.std.specs.Prelude.{◌≡◌, ◌+◌, ◌≤◌, length};
ghost use Rattle.text.specs.Adds.{Adds};
ghost use Rattle.ends.specs.Ends.{mode_no, setting, header, totals};

use text::Lines;
use window::Mode;

// The number that 01 gives a mode, which the first line has.
fn mode_no(mode: Mode) -> u64
    ensures { result ≡ mode_no mode }
{
    match mode {
        Mode::One(_) => 1,
        Mode::Two(_) => 2,
        Mode::Three(_) => 3,
    }
}

// The word behind the mode's number where RTCM frames are read with parity.
fn setting(lines: &mut Lines, parity: bool)
    requires { lines.old.len + 7 ≤ length lines.old.out.now }
    ensures adds { Adds (setting parity) lines.old lines.new }
    ensures upper_bound { lines.new.len ≤ lines.old.len + 7 }
{
    if parity {
        lines.text(b" parity");
    }
}

// The first line.
pub fn header(lines: &mut Lines, mode: Mode, max: u16, cap: usize)
    requires { lines.old.len + 84 ≤ length lines.old.out.now }
    ensures { Adds (header mode max cap) lines.old lines.new }
{
    lines.labelled(b"mode ", mode_no(mode));
    setting(lines, window::has_parity(mode));
    lines.labelled(b" max ", max as u64);
    lines.sized(b" carry ", cap as u64);
}

// The last line: used and lost of all closes, kept of the last one.
pub fn totals(lines: &mut Lines, used: u64, kept: u64, lost: u64)
    requires { lines.old.len + 84 ≤ length lines.old.out.now }
    ensures { Adds (totals used kept lost) lines.old lines.new }
{
    lines.labelled(b"end used ", used);
    lines.labelled(b" kept ", kept);
    lines.sized(b" lost ", lost);
}
