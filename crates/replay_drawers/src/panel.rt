// The buffer that is kept from call to call.
ghost use Rattle.std.specs.Prelude.{◌≤◌};
ghost use Rattle.replay_drawers.specs.declared.panel.TheConstants.{ROOM};

use crate::call::Call;
use crate::line::{Line, mark_of};
use records::STATE;
use refusals::{Refusal, number};
use std::io::Read;
use streams::{NoRecord, read_array, read_counted};

// 25 records.
const ROOM: usize = 4200;

// How many bytes of the room are the buffer's.
#[derive(Clone, Copy)]
struct Used {
    count: usize,
    ghost within: { count ≤ ROOM },
}

#[derive(Drop)]
pub struct Panel {
    // Begins with the buffer.
    room: [u8; ROOM],
    // Stays: a type of its own. Of a panel that held the bound itself no part could be lent to change.
    used: Used,
}

impl Default for Panel {
    fn default() -> Self {
        Panel {
            room: [0; ROOM],
            used: Used { count: 0 },
        }
    }
}

impl Panel {
    // A call whose bytes are cut short, or go past the buffer's end, is none.
    pub fn replay<R: Read>(&mut self, call: Call, input: &mut R) -> Result<Line, NoRecord> {
        let buffer = &mut self.room[..self.used.count];
        let line = match call {
            Call::Given => {
                let count = read_counted(input, &mut self.room)?;
                self.used = Used { count };
                self.line("given", &Ok(()))
            }
            Call::Put { start } => {
                put(buffer, start, input)?;
                self.line("put", &Ok(()))
            }
            Call::Lay => {
                let answer = host::strakobud_drawer_lay(buffer);
                self.line("lay", &answer)
            }
            Call::Save { id, state } => {
                let answer = host::strakobud_drawer_save(buffer, id, &state);
                self.line("save", &answer)
            }
            Call::Load { id } => self.load(id),
            Call::Forget { id } => {
                let answer = host::strakobud_drawer_forget(buffer, id);
                self.line("forget", &answer)
            }
        };
        Ok(line)
    }

    fn load(&self, id: u64) -> Line {
        // No load writes these bytes, so that one that refuses is seen to leave them.
        let mut state = [170; STATE];
        let answer = host::strakobud_drawer_load(self.buffer(), id, &mut state);
        Line {
            state: Some(mark_of(&state)),
            ..self.line("load", &answer)
        }
    }

    fn line(&self, name: &'static str, answer: &Result<(), Refusal>) -> Line {
        Line {
            name,
            refusal: number(answer),
            buffer: mark_of(self.buffer()),
            state: None,
        }
    }

    fn buffer(&self) -> &[u8] {
        &self.room[..self.used.count]
    }
}

// Past the buffer's end none are read: the input may have no more, and stay open.
fn put<R: Read>(buffer: &mut [u8], start: usize, input: &mut R) -> Result<(), NoRecord> {
    let end = start.checked_add(4).ok_or(NoRecord::Over)?;
    let place = buffer.get_mut(start..end).ok_or(NoRecord::Over)?;
    let bytes: [u8; 4] = read_array(input)?;
    place.copy_from_slice(&bytes);
    Ok(())
}
