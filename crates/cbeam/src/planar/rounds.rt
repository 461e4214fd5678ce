// The rounds on four words, two at a time.
ghost use Rattle.std.specs.Prelude.{◌≡◌};
ghost use Rattle.cbeam.specs.Permutation.{rounds};
ghost use Rattle.cbeam.specs.Words.{laid, added, TwoRounds};

use crate::planar::along::stepped_along;
use crate::planar::down::{linear_down, nonlinear_down};

// The constant of each odd round as it stands in the transposed state: it reaches only the first four rows there.
const ODD_CONSTANTS: [u64; 3] = [0x2000040000300009, 0x6000050000100008, 0xA0000C000070000B];

fn with_constant(mut words: [u64; 4], constant: u64) -> [u64; 4]
    ensures { result ≡ added constant words }
{
    words[0] ^= constant;
    words
}

// An even round down the columns, and then an odd round, whose constant is given, along the rows.
fn two_rounds(words: &[u64; 4], constant: u64) -> [u64; 4]
    ensures { TwoRounds constant (laid words.now) (laid result) }
{
    let columns = nonlinear_down(&linear_down(words));
    stepped_along(&with_constant(columns, constant))
}

pub(super) fn six_rounds(mut words: [u64; 4]) -> [u64; 4]
    ensures { laid result ≡ rounds 6 (laid words) }
{
    for constant in ODD_CONSTANTS {
        words = two_rounds(&words, constant);
    }
    words
}
