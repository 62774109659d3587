// A stored call, and what follows its word.
use listing::FRAME_ROOM;
use records::STATE;
use std::alloc::Global;
use std::io::Read;
use streams::{NoRecord, Part, Record, read_array, read_padded_part, read_word};

// What follows a load, a run or a frame the panel reads: it is long, and a call is copied.
#[derive(Clone, Copy)]
pub enum Call {
    // A word n, at most the room there is, and n bytes.
    Load,
    Run(By),
    Fresh,
    Frame,
    Reset,
    // The record that is kept from here on.
    Given([u8; STATE]),
}

#[derive(Clone, Copy, PartialEq, Eq)]
pub enum By {
    T,
    Table,
}

// A frame, as in a frame's call; the state's record; the increment, low word first, and the limit; the word that the buffer for
// the frames used holds before the call.
#[derive(Clone, Copy)]
pub struct Run {
    pub frame: Part<FRAME_ROOM>,
    pub state: [u8; STATE],
    pub run: [u8; 12],
    pub used: [u8; 4],
}

impl Record for Call {
    fn read<R: Read>(input: &mut R, _alloc: Global) -> Result<Self, NoRecord> {
        let kind = read_word(input)?;
        match kind {
            1 => Ok(Call::Load),
            2 => Ok(Call::Run(By::T)),
            3 => Ok(Call::Run(By::Table)),
            4 => Ok(Call::Fresh),
            5 => Ok(Call::Frame),
            6 => Ok(Call::Reset),
            7 => Ok(Call::Given(read_array(input)?)),
            _ => Err(NoRecord::Over),
        }
    }
}

// What follows a frame that is too long is read too.
pub fn read_run<R: Read>(input: &mut R) -> Result<Run, NoRecord> {
    let frame = read_padded_part(input)?;
    let state = read_array(input)?;
    let run = read_array(input)?;
    let used = read_array(input)?;
    Ok(Run {
        frame: frame.ok_or(NoRecord::Over)?,
        state,
        run,
        used,
    })
}

// A word, the frame's length, and 424 bytes that begin with the frame.
pub fn read_frame<R: Read>(input: &mut R) -> Result<Part<FRAME_ROOM>, NoRecord> {
    read_padded_part(input)?.ok_or(NoRecord::Over)
}
