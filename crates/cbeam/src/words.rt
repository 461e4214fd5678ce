// The forms that hold a state in words of one width.
ghost use Rattle.std.specs.Prelude.{◌≡◌, ℕ, ◌*◌, List, replicate, map, slice_index, slice_set};
ghost use Rattle.engine.specs.States.{State};
ghost use Rattle.cbeam.specs.Permutation.{bytes_in, pi};

use crate::form::Form;
use crate::place::Place;
use crate::word::Word;

// How the 32 bytes of a state lie in N words, and the permutation on them.
pub(crate) trait Permuted<const N: usize>: Word {
    ghost bytes: { List Self → List ℕ };

    fn permuted(words: [Self; N]) -> [Self; N]
        ensures { bytes result ≡ pi (bytes words) };

    ghost state: { (words : List Self) → State (bytes words) };

    // The bytes of the state are those of the words in order, the lowest of each word first.
    ghost in_order: { (words : List Self) → bytes words ≡ bytes_in Self.BYTES (map Self.value words) };

    ghost whole: { N * Self.BYTES ≡ 32 };
}

#[derive(Drop)]
pub struct Words<W, const N: usize>([W; N]);

impl<W: Permuted<N>, const N: usize> Form for Words<W, N> {
    ghost bytes = { λ f. W.bytes f.0 };

    ghost state = { λ f. W.state f.0 };

    fn zeros() -> Words<W, N> {
        Words(zero_words())
    }

    fn byte_at(&self, place: Place) -> u8 {
        byte_of(&self.0, place)
    }

    fn put_at(&mut self, place: Place, value: u8) {
        self.0 = with_byte(self.0, place, value);
    }

    fn permute(&mut self) {
        self.0 = W::permuted(self.0);
    }
}

fn zero_words<W: Permuted<N>, const N: usize>() -> [W; N]
    ensures { W.bytes result ≡ replicate 32 0 }
{
    [W::from(0); N]
}

fn byte_of<W: Permuted<N>, const N: usize>(words: &[W; N], place: Place) -> u8
    ensures { result ≡ slice_index (W.bytes words.now) place.index }
{
    let bytes = W::BYTES;
    let shift = 8 * (place.index % bytes) as u32;
    (words[place.index / bytes] >> shift).low_byte()
}

fn with_byte<W: Permuted<N>, const N: usize>(mut words: [W; N], place: Place, value: u8) -> [W; N]
    ensures { W.bytes result ≡ slice_set (W.bytes words) place.index value }
{
    let bytes = W::BYTES;
    let shift = 8 * (place.index % bytes) as u32;
    let word = words[place.index / bytes];
    let change = (word >> shift).low_byte() ^ value;
    words[place.index / bytes] = word ^ (W::from(change) << shift);
    words
}
