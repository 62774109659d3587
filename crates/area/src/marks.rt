// What one word of a frame shows by itself, in the walk of checks 2 to 5.
ghost use Rattle.std.specs.Prelude.{◌≡◌, if◌then◌else◌, ◌==◌, MatchResult, from_bits, true, false, refl};
ghost use Rattle.std.specs.Float.{binary32};
ghost use Rattle.std.specs.Float.Ieee.{lt};
ghost use Rattle.numbers.specs.F32.{zero};
ghost use Rattle.axis.specs.Limits.{exceeds_limit};
ghost use Rattle.refusals.specs.Refusal.{number_in, number_of};
ghost use Rattle.area.specs.Layout as At;
ghost use Rattle.area.specs.Layout.{Row};
ghost use Rattle.area.specs.Marks as Spec;

mod shown;

use axis::{is_decay_time_outside, word_exceeds_limit};
use numbers::{Ieee, is_word_negative};
use refusals::{Refusal, refuse};
pub use shown::{Kept, Shown};

// ---- a kind of word, by its row

/// How a word is read and what is asked of it, in no option and with no start.
pub trait Word {
    ghost layout_row: { Row };

    fn check(word: u32) -> Result<(), Refusal>
        ensures { number_in result ≡ Spec.shown_of layout_row word 0 };

    ghost alone: { Spec.Apart layout_row };
}

/// A whole number from 0 to MOST.
pub struct Kind<const MOST: u32>;

impl<const MOST: u32> Word for Kind<MOST> {
    ghost layout_row = { At.kind MOST };

    fn check(word: u32) -> Result<(), Refusal> {
        refuse(MOST < word, Refusal::FlagOrKind)
    }

    ghost alone = { (refl, refl, refl) };
}

pub type Flag = Kind<1>;

/// A number.
pub struct Plain;

impl Word for Plain {
    ghost layout_row = { At.plain };

    fn check(word: u32) -> Result<(), Refusal> {
        refuse(word_exceeds_limit(word), Refusal::Exceeds)
    }

    ghost alone = { (refl, refl, refl) };
}

/// A number that is not negative.
pub struct Size;

impl Word for Size {
    ghost layout_row = { At.size };

    fn check(word: u32) -> Result<(), Refusal> {
        not_negative(word, Refusal::Outside)
    }

    ghost alone = { (refl, refl, refl) };
}

pub struct SizeOrInfinity;

impl Word for SizeOrInfinity {
    ghost layout_row = { At.size_or_infinity };

    fn check(word: u32) -> Result<(), Refusal> {
        if is_infinite(word) {
            return Ok(());
        }
        Size::check(word)
    }

    ghost alone = { (refl, refl, refl) };
}

/// A number from 0 to 1.
// Stays: three steps, here and in three others. One function with a closure would have a clause about what the closure answers.
pub struct Factor;

impl Word for Factor {
    ghost layout_row = { At.factor };

    fn check(word: u32) -> Result<(), Refusal> {
        limited(word)?;
        let x = f32::of_bits(word);
        refuse(!((0.0 <= x) & (x <= 1.0)), Refusal::Outside)
    }

    ghost alone = { (refl, refl, refl) };
}

/// A number above 0, or +infinity.
pub struct PointsPerSecond;

impl Word for PointsPerSecond {
    ghost layout_row = { At.points_per_second };

    fn check(word: u32) -> Result<(), Refusal> {
        if is_infinite(word) {
            return Ok(());
        }
        limited(word)?;
        let x = f32::of_bits(word);
        refuse(!(0.0 < x), Refusal::Style)
    }

    ghost alone = { (refl, refl, refl) };
}

pub struct DecayTime;

impl Word for DecayTime {
    ghost layout_row = { At.bounded At.number At.decay_time };

    fn check(word: u32) -> Result<(), Refusal> {
        limited(word)?;
        let x = f32::of_bits(word);
        refuse(is_decay_time_outside(x), Refusal::Style)
    }

    ghost alone = { (refl, refl, refl) };
}

pub struct StopDistance;

impl Word for StopDistance {
    ghost layout_row = { At.bounded At.number At.stop_distance };

    fn check(word: u32) -> Result<(), Refusal> {
        not_negative(word, Refusal::Style)
    }

    ghost alone = { (refl, refl, refl) };
}

/// Of the end of what starts with another word, carried along.
pub fn check_end(word: u32, start: u32) -> Result<(), Refusal>
    ensures { number_in result ≡ Spec.shown_of (At.end_of 1) word start }
{
    limited(word)?;
    let x = f32::of_bits(word);
    refuse(x < f32::of_bits(start), Refusal::Outside)
}

// ---- what is asked of a word

// Whether a number exceeds its limit. It goes first where more is asked: what passes is a number.
// Stays: beside Plain's check. Its clause is the one that those who go on are shown by.
fn limited(word: u32) -> Result<(), Refusal>
    ensures { let exceeds = exceeds_limit (from_bits binary32 word) in MatchResult result (λ _. exceeds ≡ false) (λ refusal. (refusal ≡ Refusal.Exceeds) × (exceeds ≡ true)) }
{
    if word_exceeds_limit(word) {
        return Err(Refusal::Exceeds);
    }
    Ok(())
}

// A number that may not be negative. Most words pass by their bits at once: up to 0x49800000 they are numbers from 0 to the limit.
fn not_negative(word: u32, refusal: Refusal) -> Result<(), Refusal>
    ensures { number_in result ≡ (if exceeds_limit (from_bits binary32 word) then 3 else (if lt (from_bits binary32 word) zero then number_of refusal else 0)) }
{
    let fits = word <= 1233125376;
    if fits {
        return Ok(());
    }
    limited(word)?;
    refuse(is_word_negative(word), refusal)
}

// Whether these are the bits of +infinity, 0x7f800000.
fn is_infinite(word: u32) -> bool
    ensures { result ≡ (word == 0x7f80_0000) }
{
    word == 2139095040
}
