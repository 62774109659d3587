// Words of 32 bits in a line, each as eight digits.
ghost use Rattle.std.specs.Prelude.{◌≡◌, Some, [], ◌∷◌};
ghost use Rattle.listing.specs.Digits as Spec;

use numbers::Ieee;
use std::fmt;

/// A word as eight digits.
#[derive(Clone, Copy, Debug, PartialEq, Eq)]
pub struct Word(pub u32);

impl fmt::Display for Word {
    ghost output = { λ word. Some (Spec.digits_of_word word.0) };

    #[tactic(auto, using(crate::proofs::DigitLaws::printed))]
    fn fmt<W: fmt::Write>(&self, f: &mut fmt::Formatter<W>) -> fmt::Result {
        let Word(word) = *self;
        write!(f, "{word:08x}")
    }
}

impl Word {
    /// The eight digits at once, for a line that is written in one piece.
    #[tactic(auto, unfolding(crate::specs::Digits::digits_of_word))]
    pub fn digits(self) -> [u8; 8]
        ensures { result ≡ Spec.digits_of_word self.0 }
    {
        let Word(word) = self;
        [
            glyph(word / 268435456),
            glyph(word / 16777216),
            glyph(word / 1048576),
            glyph(word / 65536),
            glyph(word / 4096),
            glyph(word / 256),
            glyph(word / 16),
            glyph(word),
        ]
    }
}

// The last hexadecimal digit of a word, in lower case.
#[tactic(auto, unfolding(crate::specs::Digits::glyph_of))]
fn glyph(word: u32) -> u8
    ensures { result ≡ Spec.glyph_of word }
{
    let digit = (word % 16) as u8;
    let is_decimal = digit < 10;
    if is_decimal {
        return 48 + digit;
    }
    87 + digit
}

/// The bits of a number.
#[derive(Clone, Copy, Debug)]
pub struct Bits(pub f32);

impl fmt::Display for Bits {
    ghost output = { λ number. Some (Spec.digits_of number.0) };

    fn fmt<W: fmt::Write>(&self, f: &mut fmt::Formatter<W>) -> fmt::Result {
        write!(f, "{}", Word(self.0.bits()))
    }
}

impl Bits {
    pub fn digits(self) -> [u8; 8]
        ensures { result ≡ Spec.digits_of self.0 }
    {
        Word(self.0.bits()).digits()
    }
}

/// A flag as a digit.
#[derive(Clone, Copy, Debug, PartialEq, Eq)]
pub struct Flag(pub bool);

impl fmt::Display for Flag {
    ghost output = { λ flag. Some (Spec.flag_of flag.0 ∷ []) };

    #[tactic(auto, using(crate::proofs::DigitLaws::decimal_of_flag))]
    fn fmt<W: fmt::Write>(&self, f: &mut fmt::Formatter<W>) -> fmt::Result {
        let digit = u32::from(self.0);
        write!(f, "{digit}")
    }
}

impl Flag {
    #[tactic(auto, unfolding(crate::specs::Digits::flag_of))]
    pub fn digit(self) -> u8
        ensures { result ≡ Spec.flag_of self.0 }
    {
        if self.0 { 49 } else { 48 }
    }
}

/// Each behind a space.
#[derive(Clone, Copy, Debug, PartialEq, Eq)]
pub struct Words<'a>(pub &'a [u32]);

impl fmt::Display for Words<'_> {
    ghost output = { λ words. Some (Spec.digits_of_words words.0.now) };

    fn fmt<W: fmt::Write>(&self, f: &mut fmt::Formatter<W>) -> fmt::Result {
        for word in self.0 {
            write!(f, " {}", Word(*word))?;
        }
        Ok(())
    }
}

/// The little-endian words of whole ones, each behind a space.
// Stays: beside Words. Bytes become words one by one, and an array of them would need a length.
#[derive(Clone, Copy, Debug, PartialEq, Eq)]
pub struct ByteWords<'a>(pub &'a [u8]);

impl fmt::Display for ByteWords<'_> {
    ghost output = { λ bytes. Some (Spec.digits_of_words (Spec.words_of bytes.0.now)) };

    fn fmt<W: fmt::Write>(&self, f: &mut fmt::Formatter<W>) -> fmt::Result {
        let (words, _) = self.0.as_chunks::<4>();
        for bytes in words {
            write!(f, " {}", Word(u32::from_le_bytes(*bytes)))?;
        }
        Ok(())
    }
}
