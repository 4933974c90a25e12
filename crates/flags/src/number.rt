// The chip's numbers: a byte has 8 bits and a word 16. What is written over this trait is proved once for both.
ghost use Rattle.std.specs.Prelude.{◌≡◌, ◌⊎◌, ℕ, ◌+◌, ◌%◌, ◌^◌, ◌<◌};
ghost use Rattle.std.proofs.Common.{rules};
ghost use Rattle.numbers.specs.Numbers.{top, top_set};

// Arithmetic on a number is done in 32 bits, and its result cut to the width.
pub trait Number: Copy + Drop {
    const BITS: u32;

    ghost BITS: { ℕ };

    // The top bit alone.
    const TOP: u32;

    ghost TOP: { ℕ };

    // The largest number.
    const MAX: u32;

    ghost MAX: { ℕ };

    ghost value: { Self → ℕ };

    fn wide(self) -> u32
        ensures value { result ≡ value self }
        ensures fits { result < 2 ^ BITS };

    // What stands above the width is cut off.
    fn cut(wide: u32) -> Self
        ensures { value result ≡ wide % 2 ^ BITS };

    // No two values stand for one number.
    ghost value_is_faithful: { (x y : Self) → value x ≡ value y → x ≡ y };

    ghost is_8_or_16: { (BITS ≡ 8) ⊎ (BITS ≡ 16) };

    ghost top_is: { TOP ≡ top BITS };

    ghost max_is: { MAX + 1 ≡ 2 ^ BITS };

    final fn top_set(self) -> bool
        ensures { result ≡ top_set BITS (value self) }
    {
        self.wide() & Self::TOP != 0
    }
}

impl Number for u8 {
    const BITS: u32 = 8;

    ghost BITS = { 8 };

    const TOP: u32 = 0x80;

    ghost TOP = { 0x80 };

    const MAX: u32 = 0xFF;

    ghost MAX = { 0xFF };

    ghost value = { λ x. x };

    fn wide(self) -> u32 {
        self as u32
    }

    fn cut(wide: u32) -> u8 {
        (wide % 0x100) as u8
    }

    ghost value_is_faithful = { λ x y e. e };

    ghost is_8_or_16 = { Prim.search rules };

    ghost top_is = { Prim.search rules };

    ghost max_is = { Prim.search rules };
}

impl Number for u16 {
    const BITS: u32 = 16;

    ghost BITS = { 16 };

    const TOP: u32 = 0x8000;

    ghost TOP = { 0x8000 };

    const MAX: u32 = 0xFFFF;

    ghost MAX = { 0xFFFF };

    ghost value = { λ x. x };

    fn wide(self) -> u32 {
        self as u32
    }

    fn cut(wide: u32) -> u16 {
        (wide % 0x1_0000) as u16
    }

    ghost value_is_faithful = { λ x y e. e };

    ghost is_8_or_16 = { Prim.search rules };

    ghost top_is = { Prim.search rules };

    ghost max_is = { Prim.search rules };
}
