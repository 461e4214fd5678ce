// The linear and the nonlinear step down the columns.
ghost use Rattle.std.specs.Prelude.{◌≡◌, map};
ghost use Rattle.cbeam.specs.Permutation.{linear, nonlinear, transposed};
ghost use Rattle.cbeam.specs.Words.{laid, DownColumns};

use crate::phi::phi5;
use std::array;

pub(super) fn linear_down(words: &[u64; 4]) -> [u64; 4]
    ensures { transposed (laid result) ≡ map linear (transposed (laid words.now)) }
{
    let all = words.iter().fold(0, |sum, word| sum ^ word);
    words.map(|word| word ^ all)
}

// The nonlinear step on one word; its first rows take bits from the word above it.
#[tactic(auto, using(crate::proofs::DownNonlinear::down_columns))]
fn nonlinear_word(x: u64, above: u64) -> u64
    ensures { DownColumns x above result }
{
    let x1 = (x << 16) ^ (above >> 48);
    let x2 = (x << 32) ^ (above >> 32);
    let x3 = (x << 48) ^ (above >> 16);
    phi5(x, x1, x2, x3, above)
}

pub(super) fn nonlinear_down(words: &[u64; 4]) -> [u64; 4]
    ensures { transposed (laid result) ≡ map nonlinear (transposed (laid words.now)) }
{
    array::from_fn(|k| nonlinear_word(words[k], words[(k + 3) % 4]))
}
