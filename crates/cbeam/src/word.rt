// Words of a whole number of bytes.
ghost use Rattle.std.specs.Prelude.{◌≡◌, ℕ, ◌-◌, ◌*◌, ◌/◌, ◌%◌, ◌^◌, ◌<◌, bit_and, bit_or, bit_xor};

use std::ops::{BitAnd, BitOr, BitXor, Not, Shl, Shr};

// A word is known by the number that it holds: the laws say what each operator makes of that number.
pub(crate) trait Word: Copy
    + From<u8>
    + BitAnd<Self, Output = Self>
    + BitOr<Self, Output = Self>
    + BitXor<Self, Output = Self>
    + Not<Output = Self>
    + Shl<u32, Output = Self>
    + Shr<u32, Output = Self> {
    const BYTES: usize;

    ghost BYTES: { ℕ };

    ghost value: { Self → ℕ };

    fn low_byte(self) -> u8
        ensures { result ≡ bit_and (value self) 255 };

    ghost from_byte: { (n : ℕ) (r : Self) → Self.from_gives n r → value r ≡ n };

    // Each operator may always be used, and a shift below the number of bits.
    ghost can_and: { (a b : Self) → Self.can_bitand a b };

    ghost and: { (a b r : Self) → Self.bitand_gives a b r → value r ≡ bit_and (value a) (value b) };

    ghost can_or: { (a b : Self) → Self.can_bitor a b };

    ghost or: { (a b r : Self) → Self.bitor_gives a b r → value r ≡ bit_or (value a) (value b) };

    ghost can_xor: { (a b : Self) → Self.can_bitxor a b };

    ghost xor: { (a b r : Self) → Self.bitxor_gives a b r → value r ≡ bit_xor (value a) (value b) };

    ghost can_complement: { (a : Self) → Self.can_not a };

    ghost complement: { (a r : Self) → Self.not_gives a r → value r ≡ 2 ^ (8 * BYTES) - 1 - value a };

    ghost can_shift_left: { (a : Self) (k : ℕ) → k < 8 * BYTES → Self.can_shl a k };

    ghost shift_left: { (a : Self) (k : ℕ) (r : Self) → Self.shl_gives a k r → value r ≡ value a * 2 ^ k % 2 ^ (8 * BYTES) };

    ghost can_shift_right: { (a : Self) (k : ℕ) → k < 8 * BYTES → Self.can_shr a k };

    ghost shift_right: { (a : Self) (k : ℕ) (r : Self) → Self.shr_gives a k r → value r ≡ value a / 2 ^ k };
}

// The two widths have the same text: an `impl` for each is written by hand, since none may be written by a macro.
impl Word for u16 {
    const BYTES: usize = 2;

    ghost BYTES = { 2 };

    ghost value = { λ x. x };

    fn low_byte(self) -> u8 {
        (self & 255) as u8
    }

    ghost from_byte = { λ n r h. h };

    ghost can_and = { λ a b. tt };

    ghost and = { λ a b r h. h };

    ghost can_or = { λ a b. tt };

    ghost or = { λ a b r h. h };

    ghost can_xor = { λ a b. tt };

    ghost xor = { λ a b r h. h };

    ghost can_complement = { λ a. tt };

    ghost complement = { λ a r h. h };

    ghost can_shift_left = { λ a k h. h };

    ghost shift_left = { λ a k r h. h };

    ghost can_shift_right = { λ a k h. h };

    ghost shift_right = { λ a k r h. h };
}

impl Word for u64 {
    const BYTES: usize = 8;

    ghost BYTES = { 8 };

    ghost value = { λ x. x };

    fn low_byte(self) -> u8 {
        (self & 255) as u8
    }

    ghost from_byte = { λ n r h. h };

    ghost can_and = { λ a b. tt };

    ghost and = { λ a b r h. h };

    ghost can_or = { λ a b. tt };

    ghost or = { λ a b r h. h };

    ghost can_xor = { λ a b. tt };

    ghost xor = { λ a b r h. h };

    ghost can_complement = { λ a. tt };

    ghost complement = { λ a r h. h };

    ghost can_shift_left = { λ a k h. h };

    ghost shift_left = { λ a k r h. h };

    ghost can_shift_right = { λ a k h. h };

    ghost shift_right = { λ a k r h. h };
}
