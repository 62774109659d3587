// A stored frame and state, and what the checks answer to them.
ghost use Rattle.std.specs.Prelude.{◌≡◌};
ghost use Rattle.area.specs.Sweep as Spec;

use area::State;
use listing::FRAME_ROOM;
use records::STATE;
use refusals::{Refusal, number};
use std::alloc::Global;
use std::fmt;
use std::io::Read;
use streams::{NoRecord, Record, read_array};

// A word, the frame's length; bytes that begin with it; the state's record.
#[derive(Clone, Copy)]
pub struct Stored {
    bytes: [u8; 584],
}

// Stays: both as the numbers that the line shows, 0 for none. Options would be turned into them where they are written, and nowhere else read.
#[derive(Clone, Copy)]
pub struct Judged {
    refusal: u32,
    bad_word: u32,
}

// Read at once.
impl Record for Stored {
    fn read<R: Read>(input: &mut R, _alloc: Global) -> Result<Self, NoRecord> {
        Ok(Stored {
            bytes: read_array(input)?,
        })
    }
}

impl Stored {
    // A length past the bytes is a frame of the wrong length too.
    pub fn judged(&self) -> Judged {
        let length = words::word_in(&self.bytes, 0) as usize;
        let Some(frame) = self.bytes[4..4 + FRAME_ROOM].get(..length) else {
            return Judged {
                refusal: u32::from(Refusal::FrameLength),
                bad_word: 0,
            };
        };
        Judged {
            refusal: number(&area::check_before_7(frame, self.state())),
            bad_word: bad_word(frame),
        }
    }

    fn state(&self) -> State {
        let mut record = [0; STATE];
        record.copy_from_slice(&self.bytes[4 + FRAME_ROOM..]);
        records::state_of(&record)
    }
}

// 0 where no word is bad.
fn bad_word(frame: &[u8]) -> u32
    ensures { result ≡ Spec.bad_word frame.now }
{
    area::bad_word(frame).unwrap_or(0)
}

impl fmt::Display for Judged {
    fn fmt<W: fmt::Write>(&self, f: &mut fmt::Formatter<W>) -> fmt::Result {
        let Judged { refusal, bad_word } = *self;
        write!(f, "{refusal} {bad_word}")
    }
}
