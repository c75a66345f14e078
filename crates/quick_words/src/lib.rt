// What a step writes into the words at once: need more, a wrong sum, or a frame that one side has all of or that the carry takes
// in.
// The functions that look at no lent byte ask of the state's numbers what they need and no more: it is less than `Lent` has.
#![tactic(auto)]

ghost use Rattle.std.specs.Prelude.{◌≡◌, true, List, ℕ, ◌+◌, ◌-◌, ◌≤◌, ◌<◌};
ghost use Rattle.sum.specs.Sum.{pair_of};
ghost use Rattle.claim.specs.declared.Tale.TheVariants.{WrongSum};
ghost use Rattle.claim.specs.declared.Verdict.TheVariants.{Wait, Tell, Hand};
ghost use Rattle.claim.specs.Sizes.{skip, size};
ghost use Rattle.seek.specs.OneSide.{OnOneSide};
ghost use Rattle.state.specs.Words.{left_len, width};
ghost use Rattle.framer.specs.Step.{say};
ghost use Rattle.quick_words.specs.Quickly.{Leaves};

use claim::{Kind, UbxHead};
use state::{Lent, State};
use sum::Sums;
use taking::{Place, Side};

// Need more, and the state's words.
pub fn wait(s: State, words: &mut [u64; 24], out: &mut [u64; 8])
    ensures { (carry chunk : List ℕ) → Leaves (say s carry chunk (Wait 0)) words.old words.new out.new carry }
{
    words::write_stepped(s, words);
    words::write_plain(out, 6, 0, 0, 0)
}

// A wrong sum: the received pair, and the computed one.
pub fn tell_wrong(
    s: State,
    words: &mut [u64; 24],
    out: &mut [u64; 8],
    head: UbxHead,
    expect: Sums,
    got: Sums,
)
    requires { (s.off ≤ s.live) × ((s.part ≤ s.chunk) × ((2 ≤ width s) × (s.used + 2 ≤ 32768))) }
    ensures { (carry chunk : List ℕ) → Leaves (say s carry chunk (Tell (WrongSum head.class head.id head.n (pair_of expect.a expect.b) (pair_of got.a got.b)))) words.old words.new out.new carry }
{
    let at = s.used;
    let next = state::drained(s, claim::UBX_SYNC_SIZE);
    words::write_stepped(next, words);
    words::write_wrong(
        out,
        at,
        head.class,
        head.id,
        head.n,
        sum::word(expect.a, expect.b),
        sum::word(got.a, got.b),
    )
}

// A frame all of which lies on one side is handed out where it lies.
pub fn hand(
    s: State,
    words: &mut [u64; 24],
    out: &mut [u64; 8],
    kind: Kind,
    before: usize,
    len: usize,
)
    requires before_value { (before ≡ skip kind) × (len ≡ size kind) }
    requires off_le_live { (s.off ≤ s.live) × ((s.part ≤ s.chunk) × (s.used + width s ≤ 32768)) }
    requires kind_bound { (skip kind + size kind ≤ width s) × OnOneSide (left_len s) kind }
    ensures { (carry chunk : List ℕ) → Leaves (say s carry chunk (Hand kind)) words.old words.new out.new carry }
{
    let at = s.used;
    let used = at + (before + len);
    if s.live == s.off {
        let start = s.part + before;
        let part = start + len;
        let next = State { used, part, ..s };
        words::write_stepped(next, words);
        let in_chunk = Place {
            side: Side::Chunk,
            start,
            len,
        };
        words::write_hand(out, kind, at, in_chunk);
        return;
    }
    let start = s.off + before;
    let off = start + len;
    let next = State { off, used, ..s };
    words::write_stepped(next, words);
    let in_carry = Place {
        side: Side::Carry,
        start,
        len,
    };
    words::write_hand(out, kind, at, in_carry)
}

// A frame on both sides is handed out in the carry, where the chunk's share is less than the room behind the live bytes.
pub fn bring(
    p: &mut Lent,
    words: &mut [u64; 24],
    out: &mut [u64; 8],
    kind: Kind,
    before: usize,
    len: usize,
)
    requires before_value { (before ≡ skip kind) × (len ≡ size kind) }
    requires kind_bound { (skip kind + size kind ≤ width p.old.state) × ((skip kind < left_len p.old.state) × ((left_len p.old.state < skip kind + size kind) × (skip kind + size kind - left_len p.old.state < p.old.state.cap - p.old.state.live))) }
    ensures leaves { Leaves (say p.old.state p.old.carry.now p.old.chunk.now (Hand kind)) words.old words.new out.new p.new.carry.now }
    ensures name { p.new.carry.ghost_name ≡ p.old.carry.ghost_name }
    ensures chunk { p.new.chunk.now ≡ p.old.chunk.now }
    ensures state { p.new.state ≡ p.old.state }
{
    let s = p.state;
    let at = s.used;
    let body = State {
        off: s.off + before,
        used: at + before,
        ..s
    };
    let chunk = p.chunk;
    let taken = taking::take_grow(body, p.carry, chunk, len);
    let next = taken.state;
    words::write_stepped(next, words);
    let place = taken.place;
    words::write_hand(out, kind, at, place)
}

// Whether a body of `len` bytes, with `before` bytes before it, lies on both sides, and the carry takes in the chunk's share behind its live bytes.
pub fn has_room(s: State, before: usize, len: usize) -> bool
    requires off_le_live { (s.off ≤ s.live) × (s.live ≤ s.cap) }
    requires s_bound { (left_len s < before + len) × (before + len ≤ 32768) }
    ensures { result ≡ true → (before < left_len s) × (before + len - left_len s < s.cap - s.live) }
{
    let left = s.live - s.off;
    if left <= before {
        return false;
    }
    (before + len) - left < s.cap - s.live
}
