// The linear and the nonlinear step along the rows.
ghost use Rattle.std.specs.Prelude.{◌≡◌, ℕ, ◌<◌, map};
ghost use Rattle.cbeam.specs.Permutation.{linear, nonlinear};
ghost use Rattle.cbeam.specs.Words.{lane, laid};

use crate::phi::phi5;

// The linear step on each row of a word: its four nibbles added up, and the sum added to each of them.
#[tactic(auto, using(crate::proofs::AlongLinear::along_linear_lane))]
fn linear_lanes(x: u64) -> u64
    ensures { (m : ℕ) → m < 4 → lane result m ≡ linear (lane x m) }
{
    let mut t = x;
    t ^= t >> 4;
    t ^= t >> 8;
    t &= 0x000F000F000F000F;
    t ^= t << 4;
    t ^= t << 8;
    x ^ t
}

// The nonlinear step on each row of a word, from the word with its rows rotated by one to four places.
fn nonlinear_lanes(x: u64) -> u64
    ensures { (m : ℕ) → m < 4 → lane result m ≡ nonlinear (lane x m) }
{
    let x1 = ((x << 1) & 0xFFFEFFFEFFFEFFFE) ^ ((x >> 15) & 0x0001000100010001);
    let x2 = ((x << 2) & 0xFFFCFFFCFFFCFFFC) ^ ((x >> 14) & 0x0003000300030003);
    let x3 = ((x << 3) & 0xFFF8FFF8FFF8FFF8) ^ ((x >> 13) & 0x0007000700070007);
    let x4 = ((x << 4) & 0xFFF0FFF0FFF0FFF0) ^ ((x >> 12) & 0x000F000F000F000F);
    phi5(x, x1, x2, x3, x4)
}

// The linear and then the nonlinear step on each row of a word.
fn stepped_lanes(x: u64) -> u64
    ensures { (m : ℕ) → m < 4 → lane result m ≡ nonlinear (linear (lane x m)) }
{
    nonlinear_lanes(linear_lanes(x))
}

// Both steps on all sixteen rows.
pub(super) fn stepped_along(words: &[u64; 4]) -> [u64; 4]
    ensures { laid result ≡ map nonlinear (map linear (laid words.now)) }
{
    words.map(stepped_lanes)
}
