// A stored call, and what follows its word.
use records::STATE;
use std::alloc::Global;
use std::io::Read;
use streams::{NoRecord, Record, read_array, read_word};

#[derive(Clone, Copy)]
pub enum Call {
    // A buffer that is given. The panel reads what follows into its room: a word n, at most the room there is, and n bytes.
    Given,
    // Four bytes that are put into it: a word, where the first goes. The panel reads these, where they have a place.
    Put { start: usize },
    Lay,
    // An id, low word first, and a state's record.
    Save { id: u64, state: [u8; STATE] },
    Load { id: u64 },
    Forget { id: u64 },
}

impl Record for Call {
    fn read<R: Read>(input: &mut R, _alloc: Global) -> Result<Self, NoRecord> {
        let kind = read_word(input)?;
        match kind {
            1 => Ok(Call::Given),
            2 => {
                Ok(Call::Put {
                    start: read_word(input)? as usize,
                })
            }
            3 => Ok(Call::Lay),
            4 => {
                Ok(Call::Save {
                    id: read_id(input)?,
                    state: read_array(input)?,
                })
            }
            5 => {
                Ok(Call::Load {
                    id: read_id(input)?,
                })
            }
            6 => {
                Ok(Call::Forget {
                    id: read_id(input)?,
                })
            }
            _ => Err(NoRecord::Over),
        }
    }
}

fn read_id<R: Read>(input: &mut R) -> Result<u64, NoRecord> {
    Ok(u64::from_le_bytes(read_array(input)?))
}
