// The calls, by their numbers.
ghost use Rattle.std.specs.Prelude.{◌≤◌};

use crate::answer::Answer;
use numbers::{Align, Ieee, Pos2, Rangef, Rect};
use std::fmt;

#[derive(Clone, Copy)]
pub enum Call {
    // No call has the number 0: it is named as an exp and answered as a flag.
    Unnumbered,
    Abs,
    Copysign,
    Signum,
    Max,
    Min,
    Powi2,
    FlagAsNumber,
    Clamp,
    RangeContains,
    Ceil,
    Narrow,
    Widen,
    Lerp,
    Remap,
    RemapClamp,
    EaseInEaseOut,
    InterpolationFactor,
    RectFromMinSize,
    RectSize,
    RectIntersect,
    RectContains,
    AlignFactor,
    Exp,
}

// A number above 23 is an exp too.
impl From<u32> for Call {
    fn from(number: u32) -> Self {
        match number {
            0 => Call::Unnumbered,
            1 => Call::Abs,
            2 => Call::Copysign,
            3 => Call::Signum,
            4 => Call::Max,
            5 => Call::Min,
            6 => Call::Powi2,
            7 => Call::FlagAsNumber,
            8 => Call::Clamp,
            9 => Call::RangeContains,
            10 => Call::Ceil,
            11 => Call::Narrow,
            12 => Call::Widen,
            13 => Call::Lerp,
            14 => Call::Remap,
            15 => Call::RemapClamp,
            16 => Call::EaseInEaseOut,
            17 => Call::InterpolationFactor,
            18 => Call::RectFromMinSize,
            19 => Call::RectSize,
            20 => Call::RectIntersect,
            21 => Call::RectContains,
            22 => Call::AlignFactor,
            _ => Call::Exp,
        }
    }
}

impl fmt::Display for Call {
    fn fmt<W: fmt::Write>(&self, f: &mut fmt::Formatter<W>) -> fmt::Result {
        f.write_str(self.name())
    }
}

impl Call {
    fn name(self) -> &'static str {
        match self {
            Call::Abs => "abs",
            Call::Copysign => "copysign",
            Call::Signum => "signum",
            Call::Max => "max",
            Call::Min => "min",
            Call::Powi2 => "powi2",
            Call::FlagAsNumber => "flag_as_number",
            Call::Clamp => "clamp",
            Call::RangeContains => "range_contains",
            Call::Ceil => "ceil",
            Call::Narrow => "narrow",
            Call::Widen => "widen",
            Call::Lerp => "lerp",
            Call::Remap => "remap",
            Call::RemapClamp => "remap_clamp",
            Call::EaseInEaseOut => "ease_in_ease_out",
            Call::InterpolationFactor => "interpolation_factor",
            Call::RectFromMinSize => "rect_from_min_size",
            Call::RectSize => "rect_size",
            Call::RectIntersect => "rect_intersect",
            Call::RectContains => "rect_contains",
            Call::AlignFactor => "align_factor",
            Call::Exp | Call::Unnumbered => "exp",
        }
    }

    pub fn operand_count(self) -> usize
        ensures { result ≤ 8 }
    {
        match self {
            Call::Abs | Call::Signum | Call::Powi2 | Call::FlagAsNumber | Call::Ceil => 1,
            Call::Widen | Call::EaseInEaseOut | Call::AlignFactor | Call::Exp => 1,
            Call::Unnumbered => 1,
            Call::Copysign | Call::Max | Call::Min | Call::Narrow => 2,
            Call::Clamp | Call::RangeContains | Call::Lerp => 3,
            Call::RectFromMinSize | Call::RectSize => 4,
            Call::Remap | Call::RemapClamp => 5,
            Call::RectContains => 6,
            Call::InterpolationFactor => 7,
            Call::RectIntersect => 8,
        }
    }

    pub fn answer(self, words: [u32; 8]) -> Answer {
        let [a, b, c, d, e, f, g, h] = words.map(|bits| f32::of_bits(bits));
        let range = Rangef { min: a, max: b };
        let rect = rect_of(a, b, c, d);
        match self {
            Call::Abs => Answer::Number(numbers::abs(a)),
            Call::Copysign => Answer::Number(numbers::copysign(a, b)),
            Call::Signum => Answer::Number(numbers::signum(a)),
            Call::Max => Answer::Number(numbers::max(a, b)),
            Call::Min => Answer::Number(numbers::min(a, b)),
            Call::Powi2 => Answer::Number(numbers::powi2(a)),
            Call::FlagAsNumber | Call::Unnumbered => Answer::Number(numbers::flag_as_number(
                words[0] == 1,
            )),
            Call::Clamp => Answer::Number(numbers::clamp(a, b, c)),
            Call::RangeContains => Answer::Flag(range.contains(c)),
            Call::Ceil => Answer::Number(numbers::ceil(a)),
            Call::Narrow => Answer::Number(numbers::narrow(f64_of(words[0], words[1]))),
            Call::Widen => Answer::Wide(numbers::widen(a)),
            Call::Lerp => Answer::Number(numbers::lerp(a, b, c)),
            Call::Remap => Answer::Number(numbers::remap(a, b, c, d, e)),
            Call::RemapClamp => Answer::Number(numbers::remap_clamp(a, b, c, d, e)),
            Call::EaseInEaseOut => Answer::Number(numbers::ease_in_ease_out(a)),
            Call::InterpolationFactor => Answer::Number(factor_over_time(words)),
            Call::RectFromMinSize => Answer::Corners(Rect::from_min_size(rect.min, [c, d])),
            Call::RectSize => Answer::Pair(rect.size()),
            Call::RectIntersect => Answer::Corners(rect.intersect(rect_of(e, f, g, h))),
            Call::RectContains => Answer::Flag(rect.contains(Pos2 { x: e, y: f })),
            Call::AlignFactor => Answer::Number(align_of(words[0]).to_factor()),
            Call::Exp => Answer::Number(numbers::exp(a)),
        }
    }
}

fn factor_over_time(words: [u32; 8]) -> f32 {
    let [a, b, c, d, e, f, dt, _] = words;
    numbers::interpolation_factor(f64_of(a, b), f64_of(c, d), f64_of(e, f), f32::of_bits(dt))
}

// Stays: no From. Align is numbers', and these words count from 0.
fn align_of(kind: u32) -> Align {
    match kind {
        0 => Align::Min,
        1 => Align::Center,
        _ => Align::Max,
    }
}

fn f64_of(high: u32, low: u32) -> f64 {
    f64::of_bits(words::long_of(low, high))
}

fn rect_of(a: f32, b: f32, c: f32, d: f32) -> Rect {
    Rect {
        min: Pos2 { x: a, y: b },
        max: Pos2 { x: c, y: d },
    }
}
