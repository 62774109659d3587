// A field of a frame: words in a row, each of its kind.
ghost use Rattle.std.specs.Prelude.{◌≡◌, ℕ, ◌+◌, ◌<◌, ◌≤◌, List, [], ◌∷◌, ◌++◌, length, true, refl};
ghost use Rattle.area.specs.Layout as At;
ghost use Rattle.area.specs.Layout.{Row};
ghost use Rattle.area.specs.Marks as Spec;

use super::walk::Walk;
use crate::marks::{Flag, Plain, Word, check_end};
use numbers::Ieee;
use refusals::{Refusal, refuse};

/// Some words in a row, as a type: no value of it is made.
pub trait Field {
    ghost words: { ℕ };

    // those of a field that begins with word n
    ghost rows: { ℕ → List Row };

    fn words() -> u32
        requires { words ≤ 104 }
        ensures { result ≡ words };

    fn sweep<'a>(walk: Walk<'a>, n: u32) -> Walk<'a>
        requires { (0 < n) × (n + words ≤ 105) }
        ensures { result ≡ Spec.keeping_rows walk.entry n (rows n) };

    ghost as_many: { (n : ℕ) → length (rows n) ≡ words };
}

/// A field that an option may hold: none of its words lies in one already.
pub trait Optional: Field {
    ghost outside: { (n : ℕ) → Spec.are_outside (Self.rows n) ≡ true };
}

impl<W: Word> Field for W {
    ghost words = { 1 };

    ghost rows = { λ n. W.layout_row ∷ [] };

    fn words() -> u32 {
        1
    }

    #[inline(always)]
    fn sweep<'a>(walk: Walk<'a>, n: u32) -> Walk<'a> {
        walk.check::<W>(n)
    }

    ghost as_many = { λ n. refl };
}

impl<W: Word> Field for [W; 2] {
    ghost words = { 2 };

    ghost rows = { λ n. Spec.pair_of W.layout_row };

    fn words() -> u32 {
        2
    }

    #[tactic(auto, unfolding(crate::specs::Marks::sweep_rows))]
    #[inline(always)]
    fn sweep<'a>(walk: Walk<'a>, n: u32) -> Walk<'a> {
        walk.check::<W>(n).check::<W>(n + 1)
    }

    ghost as_many = { λ n. refl };
}

/// Both mins, then both ends.
pub struct Rect;

impl Field for Rect {
    ghost words = { 4 };

    ghost rows = { At.rect_at };

    fn words() -> u32 {
        4
    }

    #[inline(always)]
    fn sweep<'a>(walk: Walk<'a>, n: u32) -> Walk<'a> {
        let x = walk.word(n);
        let y = walk.word(n + 1);
        let end_x = walk.word(n + 2);
        let end_y = walk.word(n + 3);
        walk.keep(n, Plain::check(x))
            .keep(n + 1, Plain::check(y))
            .keep(n + 2, check_end(end_x, x))
            .keep(n + 3, check_end(end_y, y))
    }

    ghost as_many = { λ n. refl };
}

/// A start and its end.
pub struct Range;

impl Field for Range {
    ghost words = { 2 };

    ghost rows = { At.range_at };

    fn words() -> u32 {
        2
    }

    #[inline(always)]
    fn sweep<'a>(walk: Walk<'a>, n: u32) -> Walk<'a> {
        let start = walk.word(n);
        let end = walk.word(n + 1);
        walk.keep(n, Plain::check(start))
            .keep(n + 1, check_end(end, start))
    }

    ghost as_many = { λ n. refl };
}

/// An f64, low word first; it is judged at its second word.
pub struct Time;

impl Field for Time {
    ghost words = { 2 };

    ghost rows = { λ n. At.bounded At.time_low At.any ∷ At.bounded At.time_high At.any ∷ [] };

    fn words() -> u32 {
        2
    }

    #[inline(always)]
    fn sweep<'a>(walk: Walk<'a>, n: u32) -> Walk<'a> {
        let t = f64::of_bits(words::long_of(walk.word(n), walk.word(n + 1)));
        let is_outside = !((0.0 <= t) & (t <= 4294967296.0));
        walk.keep(n + 1, refuse(is_outside, Refusal::Exceeds))
    }

    ghost as_many = { λ n. refl };
}

/// A flag, then words that show nothing where it is 0.
impl<F: Optional> Field for Option<F> {
    ghost use Rattle.area.specs.Marks.{length-option};

    ghost words = { 1 + F.words };

    ghost rows = { λ n. At.flag ∷ At.option_at n (F.rows (n + 1)) };

    fn words() -> u32 {
        1 + F::words()
    }

    #[inline(always)]
    fn sweep<'a>(walk: Walk<'a>, n: u32) -> Walk<'a> {
        let flag = walk.word(n);
        let walk = walk.keep(n, Flag::check(flag));
        let is_on = flag == 1;
        if is_on {
            return F::sweep(walk, n + 1);
        }
        walk
    }

    ghost as_many = { λ n. length-option n (F.rows (n + 1)) F.words (F.as_many (n + 1)) };
}

/// One after the other.
impl<F: Field, G: Field> Field for (F, G) {
    ghost use Rattle.area.specs.Marks.{length-both};

    ghost words = { F.words + G.words };

    ghost rows = { λ n. F.rows n ++ G.rows (n + F.words) };

    fn words() -> u32 {
        F::words() + G::words()
    }

    #[inline(always)]
    fn sweep<'a>(walk: Walk<'a>, n: u32) -> Walk<'a> {
        let next = n + F::words();
        G::sweep(F::sweep(walk, n), next)
    }

    ghost as_many = { λ n. length-both (F.rows n) (G.rows (n + F.words)) F.words G.words (F.as_many n) (G.as_many (n + F.words)) };
}

impl<W: Word> Optional for W {
    ghost use Rattle.area.specs.Marks.{outside_one};

    ghost outside = { λ n. outside_one W.layout_row W.alone };
}

impl<W: Word> Optional for [W; 2] {
    ghost use Rattle.area.specs.Marks.{outside_pair};

    ghost outside = { λ n. outside_pair W.layout_row W.alone };
}

impl Optional for Rect {
    ghost outside = { λ n. refl };
}

impl Optional for Range {
    ghost outside = { λ n. refl };
}

impl<F: Optional, G: Optional> Optional for (F, G) {
    ghost use Rattle.area.specs.Marks.{outside_both};

    ghost outside = { λ n. outside_both (F.rows n) (G.rows (n + F.words)) (F.outside n) (G.outside (n + F.words)) };
}
