// The linear and the nonlinear step on one row of 16 bits, by rotations of the row.
ghost use Rattle.std.specs.Prelude.{◌≡◌};
ghost use Rattle.cbeam.specs.Permutation.{linear, nonlinear};

use crate::phi::phi5;

#[tactic(auto, using(crate::proofs::Rotations::linear_rotations))]
pub fn linear_row(row: u16) -> u16
    ensures { result ≡ linear row }
{
    row.rotate_left(12) ^ row.rotate_left(8) ^ row.rotate_left(4)
}

#[tactic(auto, using(crate::proofs::Rotations::nonlinear_rotations))]
pub fn nonlinear_row(row: u16) -> u16
    ensures { result ≡ nonlinear row }
{
    phi5(
        row,
        row.rotate_left(1),
        row.rotate_left(2),
        row.rotate_left(3),
        row.rotate_left(4),
    )
}
