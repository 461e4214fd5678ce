// The plain form: sixteen rows of 16 bits, transposed in each round.
mod constant;
pub mod rounds;
pub mod row;
mod transposition;

ghost use Rattle.std.specs.Prelude.{◌≡◌, refl};
ghost use Rattle.cbeam.specs.Permutation.{bytes_of, pi};
ghost use Rattle.cbeam.specs.States.{bytes_state};
ghost use Rattle.cbeam.specs.Orders.{rows_in_order};

use crate::budgeted::Budgeted;
use crate::words::{Permuted, Words};
use constant::CONSTANTS;
use rounds::first_rounds;

pub type Plain = Budgeted<Words<u16, 16>>;

impl Permuted<16> for u16 {
    ghost bytes = { bytes_of };

    ghost state = { bytes_state };

    fn permuted(rows: [u16; 16]) -> [u16; 16]
        ensures { bytes_of result ≡ pi (bytes_of rows) }
    {
        first_rounds(rows, &CONSTANTS)
    }

    ghost in_order = { rows_in_order };

    ghost whole = { refl };
}
