// The constants of the rounds.
ghost use Rattle.std.specs.Prelude.{◌≡◌, ℕ};
ghost use Rattle.cbeam.specs.Permutation.{constants, flipped};

use std::array;

// The constant of each of the six rounds, row by row. Only the odd rounds have one.
pub(super) const CONSTANTS: [[u16; 16]; 6] = [
    [0; 16],
    [1, 0, 0, 1, 2, 2, 0, 0, 0, 0, 4, 0, 0, 8, 0, 0],
    [0; 16],
    [0, 0, 0, 1, 2, 0, 0, 0, 4, 0, 4, 0, 0, 8, 8, 0],
    [0; 16],
    [1, 1, 0, 1, 2, 2, 2, 0, 0, 0, 4, 4, 0, 8, 0, 8],
];

pub(super) fn with_constant(rows: &[u16; 16], constant: &[u16; 16]) -> [u16; 16]
    ensures { (number : ℕ) → constant.now ≡ constants number → result ≡ flipped number rows.now }
{
    array::from_fn(|i| rows[i] ^ constant[i])
}
