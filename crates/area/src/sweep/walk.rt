// The walk on its way through a frame's words.
ghost use Rattle.std.specs.Prelude.{◌≡◌, ◌+◌, ◌<◌, ◌≤◌, ◌/◌, ◌%◌, [], length, IfSome, unwrap_or};
ghost use Rattle.refusals.specs.Refusal.{number_in};
ghost use Rattle.area.specs.Frame.{word_no};
ghost use Rattle.area.specs.Marks as Spec;
ghost use Rattle.area.specs.Sweep.{numbers_of};

use super::Swept;
use super::field::Field;
use crate::frame::FRAME;
use crate::marks::{Kept, Shown, Word};
use refusals::Refusal;
use std::marker::Model;

/// How many of the frame's words are taken, and what is kept of what they show; words after the last leave both.
#[derive(Drop)]
pub struct Walk<'a> {
    frame: &'a [u8; FRAME],
    last: u32,
    count: u32,
    kept: Kept,
}

impl<'a> Model for Walk<'a> {
    ghost use Rattle.area.specs.Marks.{Sweeping};

    ghost Value = { Sweeping };

    ghost view = { λ w. record { bytes = w.frame.now; last = w.last; walk = record { count = w.count; mark = w.kept.mark } } };
}

impl<'a> Walk<'a> {
    pub fn new(frame: &'a [u8; FRAME], last: u32) -> Walk<'a>
        ensures { result ≡ record { bytes = frame.now; last = last; walk = record { count = 0; mark = 0 } } }
    {
        Walk {
            frame,
            last,
            count: 0,
            kept: Kept::none(),
        }
    }

    /// Word n.
    // Stays: a word's number with its bounds. The numbers are constants, and a type round them would stand at each of some fifty.
    pub fn word(&self, n: u32) -> u32
        requires { (0 < n) × (n ≤ 104) }
        ensures { result ≡ word_no self.now.bytes n }
    {
        // Stays: copied first. The borrow checker covers no slice of an array behind a field.
        let frame = self.frame;
        words::word_in(frame, n - 1)
    }

    /// With what word n shows.
    pub fn keep(mut self, n: u32, checked: Result<(), Refusal>) -> Walk<'a>
        requires { (0 < n) × (n ≤ 104) }
        ensures { result ≡ Spec.keeping self.entry n (number_in checked) }
    {
        let Err(refusal) = checked else {
            return self;
        };
        let is_after = self.last < n;
        if is_after {
            return self;
        }
        let kept = self.kept.with(Shown { refusal, word: n });
        self.kept = kept;
        self
    }

    /// With word n, of that kind.
    pub fn check<W: Word>(self, n: u32) -> Walk<'a>
        requires { (0 < n) × (n ≤ 104) }
        ensures { result ≡ Spec.keeping self.entry n (Spec.shown_by W.layout_row self.entry.bytes n) }
    {
        let word = self.word(n);
        self.keep(n, W::check(word))
    }

    /// The words of the field that begins with word n, counted. Inlined, as each field's `sweep`, so that the words' numbers and the last
    /// are constants: called, the walk passes through memory, at four times the cost.
    #[inline(always)]
    pub fn take<F: Field>(self, n: u32) -> Walk<'a>
        requires { (0 < n) × (n + F.words ≤ 105) }
        ensures { result ≡ Spec.taking self.entry n (F.rows n) }
    {
        let mut walk = F::sweep(self, n);
        walk.count = counted(walk.count, walk.last, F::words());
        walk
    }

    /// How many words, and the refusal kept.
    pub fn swept(self) -> Swept
        ensures { numbers_of result ≡ record { count = self.entry.walk.count; kept = self.entry.walk.mark / 128 } }
    {
        Swept {
            count: self.count,
            kept: self.kept.shown().map_or(Ok(()), |shown| Err(shown.refusal)),
        }
    }

    /// The word that shows the refusal kept.
    pub fn bad_word(self) -> Option<u32>
        ensures answers { unwrap_or result 0 ≡ self.entry.walk.mark % 128 }
        ensures is_word { IfSome result (λ word. 0 < word) }
    {
        self.kept.shown().map(|shown| shown.word)
    }
}

// So many words more, up to the last.
#[tactic(auto, unfolding(crate::specs::Marks::counted_of))]
fn counted(count: u32, last: u32, words: u32) -> u32
    ensures { result ≡ Spec.counted_of count last words }
{
    let has_ended = last <= count;
    if has_ended {
        return count;
    }
    let ends = last - count < words;
    if ends {
        return last;
    }
    count + words
}
