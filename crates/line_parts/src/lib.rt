// What stands in the listing's lines of answers: a position with a label and a number, a UBX frame, two sums or two parities. Each is
// put into a lent buffer behind what is there.
#![tactic(auto)]

ghost use Rattle.std.specs.Prelude.{◌≡◌, ◌++◌, ◌+◌, ◌≤◌, length};
ghost use Rattle.text.specs.Text.{ascii};
ghost use Rattle.text.specs.Adds.{Adds};
ghost use Rattle.text.specs.Digits.{decimal, hex};
ghost use Rattle.text.specs.Labels.{here};
ghost use Rattle.line_parts.specs.Parts.{ubx, wrong, wrong_parity};

use text::Lines;

// A line of a position, a label and a number.
pub fn placed(lines: &mut Lines, before: u64, p: usize, label: &[u8], n: u64)
    requires { lines.old.len + (length label.now + 44) ≤ length lines.old.out.now }
    ensures { Adds (here before p ++ ((label.now ++ decimal n) ++ ascii "\n")) lines.old lines.new }
{
    lines.here(before, p);
    lines.sized(label, n);
}

// A UBX frame's line behind its position. Class, id and length come apart, as an answer has them.
pub fn ubx(lines: &mut Lines, class: u8, id: u8, n: u64)
    requires { lines.old.len + 36 ≤ length lines.old.out.now }
    ensures { Adds (ubx class id n) lines.old lines.new }
{
    lines.text(b" ubx ");
    lines.hex(2, class as u32);
    lines.text(b" ");
    lines.hex(2, id as u32);
    lines.sized(b" len ", n);
}

// Two numbers in hexadecimal, what was received and what was computed.
fn compared(lines: &mut Lines, label: &[u8], places: usize, expect: u32, got: u32)
    requires { lines.old.len + (length label.now + places + 5 + places) ≤ length lines.old.out.now }
    ensures adds { Adds (label.now ++ hex places expect ++ ascii " got " ++ hex places got) lines.old lines.new }
    ensures value { lines.new.len ≡ lines.old.len + (length label.now + places + 5 + places) }
{
    lines.text(label);
    lines.hex(places, expect);
    lines.text(b" got ");
    lines.hex(places, got);
}

// A wrong sum's line behind its position; `named`, which is the listing's own setting: with class, id and length of the frame.
pub fn wrong(lines: &mut Lines, named: bool, class: u8, id: u8, n: usize, expect: u16, got: u16)
    requires { lines.old.len + 61 ≤ length lines.old.out.now }
    ensures { Adds (wrong named class id n expect got) lines.old lines.new }
{
    compared(lines, b" sum expect ", 4, expect as u32, got as u32);
    if named {
        ubx(lines, class, id, n as u64);
    } else {
        lines.text(b"\n");
    }
}

// A wrong parity's line.
pub fn wrong_parity(lines: &mut Lines, before: u64, p: usize, expect: u32, got: u32)
    requires { lines.old.len + 56 ≤ length lines.old.out.now }
    ensures { Adds (wrong_parity before p expect got) lines.old lines.new }
{
    lines.here(before, p);
    compared(lines, b" parity expect ", 6, expect, got);
    lines.text(b"\n");
}
