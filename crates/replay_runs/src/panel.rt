// What a panel keeps from call to call.
use crate::call::{By, Call, Run, read_frame, read_run};
use crate::line::Line;
use listing::TABLE_ROOM;
use numbers::TABLE;
use records::{OUTPUTS, STATE};
use refusals::number;
use std::io::Read;
use streams::{NoRecord, read_counted};

#[derive(Drop)]
pub struct Panel {
    // For the bytes of a load.
    room: [u8; TABLE_ROOM],
    table: [u8; TABLE],
    kept: [u8; STATE],
}

impl Default for Panel {
    fn default() -> Self {
        Panel {
            room: [0; TABLE_ROOM],
            table: [0; TABLE],
            kept: [0; STATE],
        }
    }
}

impl Panel {
    pub fn replay<R: Read>(&mut self, call: Call, input: &mut R) -> Result<Line, NoRecord> {
        match call {
            Call::Load => self.load(input),
            Call::Run(by) => self.settle(by, input),
            Call::Fresh => {
                host::strakobud_fresh(&mut self.kept);
                Ok(Line::Fresh(self.kept))
            }
            Call::Frame => self.frame(input),
            Call::Reset => {
                host::strakobud_reset(&mut self.kept);
                Ok(Line::Reset(self.kept))
            }
            Call::Given(record) => {
                self.kept = record;
                Ok(Line::Given(self.kept))
            }
        }
    }

    fn load<R: Read>(&mut self, input: &mut R) -> Result<Line, NoRecord> {
        let count = read_counted(input, &mut self.room)?;
        let answer = host::strakobud_table_load(&self.room[..count], &mut self.table);
        Ok(Line::Load {
            count,
            refusal: number(&answer),
        })
    }

    fn frame<R: Read>(&mut self, input: &mut R) -> Result<Line, NoRecord> {
        let frame = read_frame(input)?;
        let mut outputs = [0; OUTPUTS];
        let answer = host::strakobud_frame(&mut self.kept, frame.bytes(), &mut outputs);
        Ok(Line::Frame {
            refusal: number(&answer),
            record: self.kept,
        })
    }

    fn settle<R: Read>(&self, by: By, input: &mut R) -> Result<Line, NoRecord> {
        let Run {
            frame,
            mut state,
            run,
            mut used,
        } = read_run(input)?;
        let answer = match by {
            By::T => host::strakobud_settle(&mut state, frame.bytes(), &run, &mut used),
            By::Table => {
                host::strakobud_settle_by(&mut state, frame.bytes(), &self.table, &run, &mut used)
            }
        };
        Ok(Line::Run {
            refusal: number(&answer),
            used,
            record: state,
        })
    }
}
