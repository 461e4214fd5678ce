// What lines are made of: words, hexadecimal bytes, decimal numbers.
// Tried with `write!`, which promises its text where it answers Ok: the goal `IsOk` of its answer stayed, since no
// contract says when it does.
ghost use Rattle.std.specs.Prelude.{◌≡◌, ◌+◌, ◌*◌, ◌<◌, ◌≤◌, length};
ghost use Rattle.bench.specs.Texts.{hex_digit, hex};
ghost use Rattle.bench.specs.Writing.{Adds, Room, free};

use crate::listing::Listing;
use itoa::{Buffer, Integer};

impl Listing<'_> {
    // The bytes that are free behind what is written.
    pub(crate) fn free(&self) -> usize
        ensures { result ≡ free self.now }
    {
        self.bytes.len() - self.used
    }

    #[tactic(auto, using(crate::proofs::Additions::written_over))]
    pub(crate) fn word(&mut self, word: &[u8])
        requires { Room self.old (length word.now) }
        ensures { Adds self.old word.now self.new }
    {
        let end = self.used + word.len();
        self.bytes[self.used..end].copy_from_slice(word);
        self.used = end;
    }

    // Each byte in two capital hexadecimal digits.
    pub(crate) fn hex(&mut self, bytes: &[u8])
        requires { Room self.old (2 * length bytes.now) }
        ensures { Adds self.old (hex bytes.now) self.new }
    {
        for b in bytes {
            self.word(&[digit(*b / 16), digit(*b % 16)]);
        }
    }

    // A number without leading zeros.
    pub(crate) fn number<N: Integer>(&mut self, n: N)
        requires { Room self.old N.MAX_STR_LEN }
        ensures text { Adds self.old (N.text n) self.new }
        ensures short { self.new.used ≤ self.old.used + N.MAX_STR_LEN }
    {
        self.word(Buffer::new().format(n).as_bytes());
    }
}

// A capital hexadecimal digit.
fn digit(d: u8) -> u8
    requires { d < 16 }
    ensures { result ≡ hex_digit d }
{
    if d < 10 { b'0' + d } else { b'A' - 10 + d }
}
