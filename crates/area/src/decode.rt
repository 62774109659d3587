// What a word or some words in a row stand for. They are numbered from 1, as in the document.
ghost use Rattle.std.specs.Prelude.{◌≡◌, ℕ, ◌+◌, List, [], ◌∷◌, from_bits, ◌==◌, slice_index_or};
ghost use Rattle.std.specs.Float.{binary32};
ghost use Rattle.numbers.specs.Axis.{index_of};
ghost use Rattle.axis.specs.Wheel.{source_of};
ghost use Rattle.area.specs.Frame as Spec;
ghost use Rattle.area.specs.Parts as Parts;

use crate::fields::{BarResponse, DragScroll, ScrollAnimation, ScrollBarVisibility, ScrollTarget};
use crate::state::ScrollingToTarget;
use axis::{AxisPhysics, KineticScrollStyle, WheelScroll, WheelSource};
use numbers::{Align, Axis, Ieee, Pos2, Rangef, Rect};

// Word n.
#[tactic(auto, unfolding(crate::specs::Frame::word_no))]
pub fn word_at(s: &[u8], n: u32) -> u32
    requires { Spec.Holds s.now n 0 }
    ensures { result ≡ Spec.word_no s.now n }
{
    words::word_in(s, n - 1)
}

// What one word stands for. A kind past its last value is turned back by check 2, and reads as the last.
pub trait OfWord: Copy {
    ghost of: { ℕ → Self };

    fn of_word(word: u32) -> Self
        ensures { result ≡ of word };
}

impl OfWord for f32 {
    ghost of = { from_bits binary32 };

    fn of_word(word: u32) -> Self {
        f32::of_bits(word)
    }
}

impl OfWord for bool {
    ghost of = { λ word. word == 1 };

    fn of_word(word: u32) -> Self {
        word == 1
    }
}

impl OfWord for ScrollBarVisibility {
    ghost of = { Spec.visibility_of };

    fn of_word(word: u32) -> Self {
        match word {
            0 => ScrollBarVisibility::AlwaysHidden,
            1 => ScrollBarVisibility::VisibleWhenNeeded,
            _ => ScrollBarVisibility::AlwaysVisible,
        }
    }
}

impl OfWord for DragScroll {
    ghost of = { Spec.drag_of };

    fn of_word(word: u32) -> Self {
        match word {
            0 => DragScroll::Never,
            1 => DragScroll::OnTouch,
            _ => DragScroll::Always,
        }
    }
}

impl OfWord for Option<WheelSource> {
    ghost of = { source_of };

    fn of_word(word: u32) -> Self {
        WheelSource::from_word(word)
    }
}

impl OfWord for Option<Align> {
    ghost of = { Spec.align_of };

    fn of_word(word: u32) -> Self {
        match word {
            0 => None,
            1 => Some(Align::Min),
            2 => Some(Align::Center),
            _ => Some(Align::Max),
        }
    }
}

// What word n stands for.
#[tactic(auto, unfolding(crate::specs::Frame::kind_no))]
pub fn kind_at<T: OfWord>(s: &[u8], n: u32) -> T
    requires { Spec.Holds s.now n 0 }
    ensures { result ≡ Spec.kind_no T.of s.now n }
{
    T::of_word(word_at(s, n))
}

// What the word of axis d stands for, of the two from word n on.
#[tactic(auto, unfolding(crate::specs::Frame::both_no, crate::specs::Frame::kind_no))]
pub fn kind_along<T: OfWord>(s: &[u8], n: u32, d: Axis) -> T
    requires { Spec.Holds s.now n 1 }
    ensures { (otherwise : _) → result ≡ slice_index_or (Spec.both_no T.of s.now n) (index_of d) otherwise }
{
    match d {
        Axis::X => kind_at(s, n),
        Axis::Y => kind_at(s, n + 1),
    }
}

// What the words of axis d stand for: those from word x on, or from word y on.
pub fn words_along<T: FromWords>(s: &[u8], x: u32, y: u32, d: Axis) -> T
    requires { Spec.Holds s.now x T.more × Spec.Holds s.now y T.more }
    ensures { (otherwise : _) → result ≡ slice_index_or (T.read s.now x ∷ T.read s.now y ∷ []) (index_of d) otherwise }
{
    match d {
        Axis::X => T::at(s, x),
        Axis::Y => T::at(s, y),
    }
}

// Stays: `Holds` at each reading. A record of another length is read by the same functions as a frame, so no length stands in the type.
// What words in a row stand for, from word n on; `more` is how many there are after the first.
pub trait FromWords: Copy {
    ghost more: { ℕ };

    ghost read: { List ℕ → ℕ → Self };

    fn at(s: &[u8], n: u32) -> Self
        requires { Spec.Holds s.now n more }
        ensures { result ≡ read s.now n };
}

impl FromWords for f32 {
    ghost more = { 0 };

    ghost read = { Spec.number_no };

    #[tactic(auto, unfolding(crate::specs::Frame::number_no, crate::specs::Frame::kind_no))]
    fn at(s: &[u8], n: u32) -> Self {
        kind_at(s, n)
    }
}

impl FromWords for bool {
    ghost more = { 0 };

    ghost read = { Spec.flag_no };

    #[tactic(auto, unfolding(crate::specs::Frame::flag_no, crate::specs::Frame::kind_no))]
    fn at(s: &[u8], n: u32) -> Self {
        kind_at(s, n)
    }
}

// An f64, low word first.
impl FromWords for f64 {
    ghost more = { 1 };

    ghost read = { Spec.time_no };

    #[tactic(auto, unfolding(crate::specs::Frame::time_no))]
    fn at(s: &[u8], n: u32) -> Self {
        f64::of_bits(words::long_of(word_at(s, n), word_at(s, n + 1)))
    }
}

impl<T: OfWord> FromWords for [T; 2] {
    ghost more = { 1 };

    ghost read = { Spec.both_no T.of };

    #[tactic(auto, unfolding(crate::specs::Frame::both_no, crate::specs::Frame::kind_no))]
    fn at(s: &[u8], n: u32) -> Self {
        [kind_at(s, n), kind_at(s, n + 1)]
    }
}

// A flag, then the words, which are not heeded where the flag is off.
impl<T: FromWords> FromWords for Option<T> {
    ghost more = { T.more + 1 };

    ghost read = { Spec.option_no T.read };

    #[tactic(auto, unfolding(crate::specs::Frame::option_no))]
    fn at(s: &[u8], n: u32) -> Self {
        if bool::at(s, n) {
            Some(T::at(s, n + 1))
        } else {
            None
        }
    }
}

impl FromWords for Pos2 {
    ghost more = { 1 };

    ghost read = { Spec.pos2_no };

    #[tactic(auto, unfolding(crate::specs::Frame::pos2_no))]
    fn at(s: &[u8], n: u32) -> Self {
        Pos2 {
            x: f32::at(s, n),
            y: f32::at(s, n + 1),
        }
    }
}

impl FromWords for Rect {
    ghost more = { 3 };

    ghost read = { Spec.rect_no };

    #[tactic(auto, unfolding(crate::specs::Frame::rect_no))]
    fn at(s: &[u8], n: u32) -> Self {
        Rect {
            min: Pos2::at(s, n),
            max: Pos2::at(s, n + 2),
        }
    }
}

impl FromWords for Rangef {
    ghost more = { 1 };

    ghost read = { Spec.rangef_no };

    #[tactic(auto, unfolding(crate::specs::Frame::rangef_no))]
    fn at(s: &[u8], n: u32) -> Self {
        Rangef {
            min: f32::at(s, n),
            max: f32::at(s, n + 1),
        }
    }
}

impl FromWords for BarResponse {
    ghost more = { 4 };

    ghost read = { Spec.bar_response_no };

    #[tactic(auto, unfolding(crate::specs::Frame::bar_response_no))]
    fn at(s: &[u8], n: u32) -> Self {
        BarResponse {
            hovered: bool::at(s, n),
            dragged: bool::at(s, n + 1),
            press: Option::at(s, n + 2),
        }
    }
}

impl FromWords for ScrollAnimation {
    ghost more = { 2 };

    ghost read = { Spec.animation_no };

    #[tactic(auto, unfolding(crate::specs::Frame::animation_no))]
    fn at(s: &[u8], n: u32) -> Self {
        ScrollAnimation {
            points_per_second: f32::at(s, n),
            duration: Rangef::at(s, n + 1),
        }
    }
}

impl FromWords for ScrollTarget {
    ghost more = { 5 };

    ghost read = { Spec.scroll_target_no };

    #[tactic(auto, unfolding(crate::specs::Frame::scroll_target_no))]
    fn at(s: &[u8], n: u32) -> Self {
        ScrollTarget {
            range: Rangef::at(s, n),
            align: kind_at(s, n + 2),
            animation: ScrollAnimation::at(s, n + 3),
        }
    }
}

impl FromWords for ScrollingToTarget {
    ghost more = { 4 };

    ghost read = { Parts.target_no };

    #[tactic(auto, unfolding(crate::specs::Parts::target_no))]
    fn at(s: &[u8], n: u32) -> Self {
        ScrollingToTarget {
            start: f64::at(s, n),
            end: f64::at(s, n + 2),
            target_offset: f32::at(s, n + 4),
        }
    }
}

impl FromWords for KineticScrollStyle {
    ghost more = { 2 };

    ghost read = { Parts.kinetic_no };

    #[tactic(auto, unfolding(crate::specs::Parts::kinetic_no))]
    fn at(s: &[u8], n: u32) -> Self {
        KineticScrollStyle {
            decay_time: f32::at(s, n),
            stop_distance: f32::at(s, n + 1),
            rubber_band: bool::at(s, n + 2),
        }
    }
}

// As in a call on one axis.
impl FromWords for AxisPhysics {
    ghost more = { 5 };

    ghost read = { Parts.axis_no };

    #[tactic(auto, unfolding(crate::specs::Parts::axis_no))]
    fn at(s: &[u8], n: u32) -> Self {
        AxisPhysics {
            bounds: Rangef::at(s, n),
            viewport_extent: f32::at(s, n + 2),
            style: KineticScrollStyle::at(s, n + 3),
        }
    }
}

impl FromWords for WheelScroll {
    ghost more = { 3 };

    ghost read = { Parts.scroll_no };

    #[tactic(auto, unfolding(crate::specs::Parts::scroll_no))]
    fn at(s: &[u8], n: u32) -> Self {
        WheelScroll {
            delta: f32::at(s, n),
            source: kind_at(s, n + 1),
            can_chain_to_parent: bool::at(s, n + 2),
            dt: f32::at(s, n + 3),
        }
    }
}
