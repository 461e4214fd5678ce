// The transposition of sixteen rows, bit by bit.
ghost use Rattle.std.specs.Prelude.{◌≡◌, ◌<◌};
ghost use Rattle.cbeam.specs.Permutation.{transposed_row, transposed};

use std::array;

// Bit i of each row, as a row.
fn column(rows: &[u16; 16], i: usize) -> u16
    requires { i < 16 }
    ensures { result ≡ transposed_row rows.now i }
{
    let mut x: u16 = 0;
    for (j, row) in rows.iter().enumerate() {
        x |= ((row >> i) & 1) << j;
    }
    x
}

pub(super) fn transposed_rows(rows: &[u16; 16]) -> [u16; 16]
    ensures { result ≡ transposed rows.now }
{
    array::from_fn(|i| column(rows, i))
}
