// The word of a format: `u32` or `u64`, with the operators that a number's methods take, and the
// three that wrap.
ghost use Rattle.std.specs.Prelude.{◌≡◌, ℕ, ◌+◌, ◌-◌, ◌*◌, ◌/◌, ◌%◌, ◌^◌, ◌<◌, ◌≤◌, bit_and, bit_or, Some, eqb};
ghost use Rattle.std.specs.Ordering.{nat_cmp};
ghost use Rattle.std.proofs.Common.{refl};

use std::ops::{Add, BitAnd, BitOr, Not, Sub};

pub trait Word: Copy
    + PartialOrd
    + Not<Output = Self>
    + BitAnd<Self, Output = Self>
    + BitOr<Self, Output = Self>
    + Add<Self, Output = Self>
    + Sub<Self, Output = Self> {
    // The whole number that a word is, and how many bits it has.
    ghost value: { Self → ℕ };

    ghost width: { ℕ };

    // The difference modulo 2^width.
    fn difference(self, other: Self) -> Self
        ensures { value result ≡ (2 ^ width + value self - value other) % 2 ^ width };

    // Shifts whose count is taken modulo the width.
    fn moved_up(self, count: Self) -> Self
        ensures { value result ≡ value self * 2 ^ (value count % width) % 2 ^ width };

    fn moved_down(self, count: Self) -> Self
        ensures { value result ≡ value self / 2 ^ (value count % width) };

    fn half(self) -> Self
        ensures { value result ≡ value self / 2 };

    // When the operators may be used, and that they and the comparisons are those of whole numbers.
    ghost can_not_law: { (a : Self) → Self.can_not a };

    ghost can_bitand_law: { (a b : Self) → Self.can_bitand a b };

    ghost can_bitor_law: { (a b : Self) → Self.can_bitor a b };

    ghost can_add_law: { (a b : Self) → value a + value b < 2 ^ width → Self.can_add a b };

    ghost can_sub_law: { (a b : Self) → value b ≤ value a → Self.can_sub a b };

    ghost not_law: { (a r : Self) → Self.not_gives a r → value r ≡ 2 ^ width - 1 - value a };

    ghost bitand_law: { (a b r : Self) → Self.bitand_gives a b r
        → value r ≡ bit_and (value a) (value b) };

    ghost bitor_law: { (a b r : Self) → Self.bitor_gives a b r
        → value r ≡ bit_or (value a) (value b) };

    ghost add_law: { (a b r : Self) → Self.add_gives a b r → value r ≡ value a + value b };

    ghost sub_law: { (a b r : Self) → Self.sub_gives a b r → value r ≡ value a - value b };

    ghost order_law: { (a b : Self) → Self.partial_cmp a b ≡ Some (nat_cmp (value a) (value b)) };

    ghost equal_law: { (a b : Self) → Self.eq a b ≡ eqb (value a) (value b) };
}

impl Word for u32 {
    ghost value = { λ a. a };

    ghost width = { 32 };

    fn difference(self, other: u32) -> u32 {
        u32::wrapping_sub(self, other)
    }

    fn moved_up(self, count: u32) -> u32 {
        self << (count % 32)
    }

    fn moved_down(self, count: u32) -> u32 {
        self >> (count % 32)
    }

    fn half(self) -> u32 {
        self >> 1
    }

    ghost can_not_law = { λ a. tt };

    ghost can_bitand_law = { λ a b. tt };

    ghost can_bitor_law = { λ a b. tt };

    ghost can_add_law = { λ a b h. h };

    ghost can_sub_law = { λ a b h. h };

    ghost not_law = { λ a r e. e };

    ghost bitand_law = { λ a b r e. e };

    ghost bitor_law = { λ a b r e. e };

    ghost add_law = { λ a b r e. e };

    ghost sub_law = { λ a b r e. e };

    ghost order_law = { λ a b. refl };

    ghost equal_law = { λ a b. refl };
}

impl Word for u64 {
    ghost value = { λ a. a };

    ghost width = { 64 };

    fn difference(self, other: u64) -> u64 {
        u64::wrapping_sub(self, other)
    }

    fn moved_up(self, count: u64) -> u64 {
        self << (count % 64)
    }

    fn moved_down(self, count: u64) -> u64 {
        self >> (count % 64)
    }

    fn half(self) -> u64 {
        self >> 1
    }

    ghost can_not_law = { λ a. tt };

    ghost can_bitand_law = { λ a b. tt };

    ghost can_bitor_law = { λ a b. tt };

    ghost can_add_law = { λ a b h. h };

    ghost can_sub_law = { λ a b h. h };

    ghost not_law = { λ a r e. e };

    ghost bitand_law = { λ a b r e. e };

    ghost bitor_law = { λ a b r e. e };

    ghost add_law = { λ a b r e. e };

    ghost sub_law = { λ a b r e. e };

    ghost order_law = { λ a b. refl };

    ghost equal_law = { λ a b. refl };
}
