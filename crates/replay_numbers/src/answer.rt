// What a call answers, as the words of its line.
use listing::{Bits, Word};
use numbers::{Ieee, Rect};
use std::fmt;

#[derive(Clone, Copy)]
pub enum Answer {
    Number(f32),
    Flag(bool),
    Wide(f64),
    Pair([f32; 2]),
    Corners(Rect),
}

// The high word of an f64 first.
impl fmt::Display for Answer {
    fn fmt<W: fmt::Write>(&self, f: &mut fmt::Formatter<W>) -> fmt::Result {
        match *self {
            Answer::Number(x) => write!(f, " {}", Bits(x)),
            Answer::Flag(flag) => write!(f, " {}", Word(u32::from(flag))),
            Answer::Wide(x) => {
                let [low, high] = words::long_words(x.bits());
                write!(f, " {} {}", Word(high), Word(low))
            }
            Answer::Pair(pair) => write!(f, " {} {}", Bits(pair[0]), Bits(pair[1])),
            Answer::Corners(Rect { min, max }) => {
                write!(f, " {} {}", Bits(min.x), Bits(min.y))?;
                write!(f, " {} {}", Bits(max.x), Bits(max.y))
            }
        }
    }
}
