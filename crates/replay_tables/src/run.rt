// What a call finds from those before it.
use crate::call::Call;
use crate::line::Line;
use crate::loaded::Loaded;
use listing::{Place, Step, Turns};
use numbers::Ieee;
use refusals::number;
use std::io::Read;
use streams::NoRecord;

#[derive(Default, Drop)]
pub struct Run {
    turns: Turns,
    loaded: Loaded,
}

impl Run {
    // A load that is cut short, or longer than its room, is none.
    pub fn replay<R: Read>(&mut self, call: Call, input: &mut R) -> Result<Line, NoRecord> {
        let table = self.loaded.bytes();
        let line = match call {
            Call::Load => self.load(input)?,
            Call::Exp(x) => {
                Line::Exp {
                    x,
                    answer: numbers::exp_by(f32::of_bits(x), table),
                }
            }
            Call::Step(call) => Line::Step(Step::by(call, table)),
            Call::Frame(frame) => {
                let answer = self.turns.frame(&frame, table);
                Line::Frame {
                    refusal: number(&answer),
                    place: Place::from(self.turns.state),
                }
            }
            Call::Reset => {
                self.turns.state = area::reset(self.turns.state);
                Line::Reset(Place::from(self.turns.state))
            }
        };
        Ok(line)
    }

    fn load<R: Read>(&mut self, input: &mut R) -> Result<Line, NoRecord> {
        let (count, loaded) = self.loaded.load(input)?;
        Ok(Line::Load {
            count,
            refusal: number(&loaded),
        })
    }
}
