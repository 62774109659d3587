// The line of a call: its name, its operands, after "=" the refusal or 0, and what moved, as it was given where the call is refused.
use axis::Wheeled;
use listing::{Answered, Bits, ByteWords, Flag, Step};
use std::fmt;

#[derive(Clone, Copy)]
pub enum Line {
    Drag {
        call: [u8; 32],
        answer: Answered<f32>,
    },
    Step(Step),
    Wheel {
        call: [u8; 52],
        answer: Answered<Wheeled>,
    },
}

impl fmt::Display for Line {
    fn fmt<W: fmt::Write>(&self, f: &mut fmt::Formatter<W>) -> fmt::Result {
        match self {
            Line::Drag { call, answer } => {
                let Answered { refusal, value } = *answer;
                write!(f, "drag{} = {refusal} {}", ByteWords(call), Bits(value))
            }
            Line::Step(step) => write!(f, "{step}"),
            Line::Wheel { call, answer } => {
                let Answered { refusal, value } = *answer;
                let (offset, vel) = (Bits(value.offset), Bits(value.vel));
                let bounced = Flag(value.bounced_this_momentum);
                let consumed = Flag(value.consumed);
                write!(f, "wheel{} = {refusal} ", ByteWords(call))?;
                write!(f, "{offset} {vel} {bounced} {consumed}")
            }
        }
    }
}
