// Lines in a lent buffer. How much room a line needs is each line's own to ask: it is no fact of the buffer.
#![tactic(auto)]

ghost use Rattle.std.specs.Prelude.{◌≤◌, length};

// The buffer's first `len` bytes are text.
#[derive(Drop)]
pub struct Lines<'a> {
    pub out: &'a mut [u8],
    pub len: usize,
    ghost fits: { len ≤ length out.now },
}
