// The rounds on sixteen rows, step by step as they are published.
ghost use Rattle.std.specs.Prelude.{◌≡◌, ℕ, map};
ghost use Rattle.std.specs.List.{range_with_len};
ghost use Rattle.cbeam.specs.Permutation.{constants, linear, nonlinear, rows_of, round, rounds, rows_after};

use crate::plain::constant::{CONSTANTS, with_constant};
use crate::plain::row::{linear_row, nonlinear_row};
use crate::plain::transposition::transposed_rows;
use std::array;

fn rows_of(bytes: &[u8; 32]) -> [u16; 16]
    ensures { result ≡ rows_of bytes.now }
{
    array::from_fn(|k| u16::from_le_bytes([bytes[2 * k], bytes[2 * k + 1]]))
}

// The linear and then the nonlinear step on each row. By `map` a mixing takes twice the time.
fn stepped_rows(rows: &[u16; 16]) -> [u16; 16]
    ensures { result ≡ map nonlinear (map linear rows.now) }
{
    array::from_fn(|i| nonlinear_row(linear_row(rows[i])))
}

// The round whose constant is given.
fn one_round(rows: &[u16; 16], constant: &[u16; 16]) -> [u16; 16]
    ensures { (number : ℕ) → constant.now ≡ constants number → result ≡ round number rows.now }
{
    let flipped = with_constant(rows, constant);
    let turned = transposed_rows(&flipped);
    stepped_rows(&turned)
}

// As many rounds as there are constants, which are those of the first rounds.
pub(super) fn first_rounds(mut rows: [u16; 16], table: &[[u16; 16]]) -> [u16; 16]
    ensures { (count : ℕ) → table.now ≡ map constants (range_with_len 0 count) → result ≡ rounds count rows }
{
    for constant in table {
        rows = one_round(&rows, constant);
    }
    rows
}

// The rows of 32 bytes after the first rounds, as many as are asked for. There are six, and nothing past them.
pub fn rows_after(bytes: &[u8; 32], count: u32) -> Option<[u16; 16]>
    ensures { result ≡ rows_after bytes.now count }
{
    let table = CONSTANTS.get(..count as usize)?;
    Some(first_rounds(rows_of(bytes), table))
}
