// Text put into a lent buffer behind what is there: bytes as they are, numbers in decimal and in hexadecimal, and what the lines of
// the listing and of the stamps share: a label and a number, a position, a line's end.
#![tactic(auto)]

ghost use Rattle.std.specs.Prelude.{◌≡◌, ◌+◌, ◌<◌, ◌≤◌, ◌++◌, length, take};
ghost use Rattle.text.specs.Text.{ascii};
ghost use Rattle.text.specs.Digits.{decimal, hex_digit, hex};
ghost use Rattle.text.specs.Labels.{here};
ghost use Rattle.text.specs.Adds.{Adds};

mod lines;

pub use lines::Lines;

// The digit of a number below sixteen.
fn hex_digit(d: u8) -> u8
    requires { d < 16 }
    ensures { result ≡ hex_digit d }
{
    let i = d as usize;
    b"0123456789ABCDEF"[i]
}

impl<'a> Lines<'a> {
    // The text so far.
    pub fn bytes(&self) -> &[u8]
        ensures { result.now ≡ take self.now.len self.now.out.now }
    {
        &self.out[..self.len]
    }

    // The bytes of a text.
    pub fn text(&mut self, s: &[u8])
        requires { self.old.len + length s.now ≤ length self.old.out.now }
        ensures { Adds s.now self.old self.new }
    {
        let end = self.len + s.len();
        self.out[self.len..end].copy_from_slice(s);
        self.len = end;
    }

    // A number's decimal digits.
    fn decimal(&mut self, n: u64)
        requires { self.old.len + 20 ≤ length self.old.out.now }
        ensures adds { Adds (decimal n) self.old self.new }
        ensures upper_bound { self.new.len ≤ self.old.len + 20 }
    {
        let mut digits = [0u8; 20];
        let k = io::decimal(n, &mut digits);
        self.text(&digits[..k]);
    }

    // A number's last hexadecimal digits, so many of them, the high one first: it calls itself for those before the last, as its
    // definition does.
    pub fn hex(&mut self, places: usize, n: u32)
        requires { self.old.len + places ≤ length self.old.out.now }
        ensures adds { Adds (hex places n) self.old self.new }
        ensures value { self.new.len ≡ self.old.len + places }
    {
        if places > 0 {
            self.hex(places - 1, n / 16);
            self.text(&[hex_digit((n % 16) as u8)]);
        }
    }

    // A label, and a number in decimal.
    pub fn labelled(&mut self, label: &[u8], n: u64)
        requires { self.old.len + (length label.now + 20) ≤ length self.old.out.now }
        ensures adds { Adds (label.now ++ decimal n) self.old self.new }
        ensures upper_bound { self.new.len ≤ self.old.len + (length label.now + 20) }
    {
        self.text(label);
        self.decimal(n);
    }

    // `at P`, with the position in the stream.
    pub fn here(&mut self, before: u64, p: usize)
        requires { self.old.len + 23 ≤ length self.old.out.now }
        ensures adds { Adds (here before p) self.old self.new }
        ensures upper_bound { self.new.len ≤ self.old.len + 23 }
    {
        self.labelled(b"at ", before.wrapping_add(p as u64));
    }

    // The end of a line that is a label and a number.
    pub fn sized(&mut self, label: &[u8], n: u64)
        requires { self.old.len + (length label.now + 21) ≤ length self.old.out.now }
        ensures { Adds ((label.now ++ decimal n) ++ ascii "\n") self.old self.new }
    {
        self.labelled(label, n);
        self.text(b"\n");
    }
}
