// The transposition-free form: four words of 64 bits, each four rows.
mod along;
mod down;
mod rounds;

ghost use Rattle.std.specs.Prelude.{◌≡◌, refl};
ghost use Rattle.cbeam.specs.Permutation.{bytes_of, pi};
ghost use Rattle.cbeam.specs.States.{bytes_state};
ghost use Rattle.cbeam.specs.Orders.{words_in_order};
ghost use Rattle.cbeam.specs.Words.{laid};

use crate::budgeted::Budgeted;
use crate::words::{Permuted, Words};
use rounds::six_rounds;

pub type Planar = Budgeted<Words<u64, 4>>;

impl Permuted<4> for u64 {
    ghost bytes = { λ q. bytes_of (laid q) };

    ghost state = { λ q. bytes_state (laid q) };

    fn permuted(words: [u64; 4]) -> [u64; 4]
        ensures { bytes_of (laid result) ≡ pi (bytes_of (laid words)) }
    {
        six_rounds(words)
    }

    ghost in_order = { words_in_order };

    ghost whole = { refl };
}
