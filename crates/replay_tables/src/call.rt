// A stored call, and what follows its word.
use area::FRAME;
use std::alloc::Global;
use std::io::Read;
use streams::{NoRecord, Record, read_array, read_word};

#[derive(Clone, Copy)]
pub enum Call {
    // The run reads what follows into its room: a word n, at most the room there is, and a table of n bytes.
    Load,
    // The bits of x.
    Exp(u32),
    // Bounds min and max, extent, decay_time, stop_distance, rubber_band; then offset, velocity, dt, hold.
    Step([u8; 40]),
    Frame([u8; FRAME]),
    Reset,
}

impl Record for Call {
    fn read<R: Read>(input: &mut R, _alloc: Global) -> Result<Self, NoRecord> {
        let kind = read_word(input)?;
        match kind {
            1 => Ok(Call::Load),
            2 => Ok(Call::Exp(read_word(input)?)),
            3 => Ok(Call::Step(read_array(input)?)),
            4 => Ok(Call::Frame(read_array(input)?)),
            5 => Ok(Call::Reset),
            _ => Err(NoRecord::Over),
        }
    }
}
