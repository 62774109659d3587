// The line of a call: its name, numbers as the digits of their bits, counts and refusals in decimal, flags as a digit.
use listing::{Bits, Place, Step, Word};
use std::fmt;

// Stays: the refusal as the number that the line shows, 0 for none. An Option would be turned into it where it is written, and nowhere else read.
#[derive(Clone, Copy)]
pub enum Line {
    Load { count: usize, refusal: u32 },
    Exp { x: u32, answer: f32 },
    // As in replay_axis.
    Step(Step),
    // As in `frames`.
    Frame { refusal: u32, place: Place },
    Reset(Place),
}

impl fmt::Display for Line {
    fn fmt<W: fmt::Write>(&self, f: &mut fmt::Formatter<W>) -> fmt::Result {
        match self {
            Line::Load { count, refusal } => write!(f, "load {count} {refusal}"),
            Line::Exp { x, answer } => write!(f, "exp {} {}", Word(*x), Bits(*answer)),
            Line::Step(step) => write!(f, "{step}"),
            Line::Frame { refusal, place } => write!(f, "frame {refusal} {place}"),
            Line::Reset(place) => write!(f, "reset {place}"),
        }
    }
}
