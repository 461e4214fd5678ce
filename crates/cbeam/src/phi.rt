// φ5 on words.
ghost use Rattle.std.specs.Prelude.{◌*◌, ◌^◌, ◌<◌};
ghost use Rattle.cbeam.specs.Phi5.{Phi5Bits};

use crate::word::Word;

// φ5 at each bit of five words, by its published bit formula. What `!` is taken of has to fit the width of a word: no law
// of a width can say so, since a number in a law may be any.
pub(crate) fn phi5<W: Word>(x0: W, x1: W, x2: W, x3: W, x4: W) -> W
    requires x0 { W.value x0 < 2 ^ (8 * W.BYTES) }
    requires x2 { W.value x2 < 2 ^ (8 * W.BYTES) }
    requires x3 { W.value x3 < 2 ^ (8 * W.BYTES) }
    ensures { Phi5Bits (8 * W.BYTES) (W.value result) (W.value x0) (W.value x1) (W.value x2) (W.value x3) (W.value x4) }
{
    (!(x0 & ((!x3 & x4) ^ (!x2 & x3))) & (x1 | (!x2 & x3))) ^ (!x2 & (!x3 & x4))
}
