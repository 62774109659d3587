// A float by its bit pattern, in either width.
ghost use Rattle.std.specs.Prelude.{◌≡◌, from_bits, to_bits};
ghost use Rattle.std.specs.Float.{binary32, binary64};
ghost use Rattle.numbers.specs.Ieee as Spec;

pub trait Ieee: Copy {
    type Bits: Copy;

    ghost of_pattern: { Self.Bits → Self };

    ghost pattern: { Self → Self.Bits };

    /// The number that a bit pattern stands for.
    fn of_bits(bits: Self::Bits) -> Self
        ensures { result ≡ of_pattern bits };

    /// The bit pattern of a number. A not-a-number is written as 7fc00000, or 7ff80000 00000000, whichever it is.
    fn bits(self) -> Self::Bits
        ensures { result ≡ pattern self };

    ghost reads_back: { (bits : Self.Bits) → of_pattern (pattern (of_pattern bits)) ≡ of_pattern bits };
}

impl Ieee for f32 {
    type Bits = u32;

    ghost of_pattern = { from_bits binary32 };

    ghost pattern = { to_bits binary32 };

    ghost reads_back = { Spec.reads_back binary32 };

    fn of_bits(bits: u32) -> Self {
        std::num::f32_from_bits_with_nan(bits)
    }

    fn bits(self) -> u32 {
        std::num::f32_to_bits_with_nan(self)
    }
}

impl Ieee for f64 {
    type Bits = u64;

    ghost of_pattern = { from_bits binary64 };

    ghost pattern = { to_bits binary64 };

    ghost reads_back = { Spec.reads_back binary64 };

    fn of_bits(bits: u64) -> Self {
        std::num::f64_from_bits_with_nan(bits)
    }

    fn bits(self) -> u64 {
        std::num::f64_to_bits_with_nan(self)
    }
}
