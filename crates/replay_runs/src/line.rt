// The line of a call: its name, counts and refusals in decimal, and of a run the word of the buffer for the frames used; then
// the words of the record after the call.
use listing::ByteWords;
use records::STATE;
use std::fmt;

// Stays: the refusal as the number that the line shows, 0 for none. An Option would be turned into it where it is written, and nowhere else read.
#[derive(Clone, Copy)]
pub enum Line {
    // The runs under the table show what a load left there.
    Load {
        count: usize,
        refusal: u32,
    },
    Run {
        refusal: u32,
        used: [u8; 4],
        record: [u8; STATE],
    },
    Fresh([u8; STATE]),
    Frame {
        refusal: u32,
        record: [u8; STATE],
    },
    Reset([u8; STATE]),
    Given([u8; STATE]),
}

impl fmt::Display for Line {
    fn fmt<W: fmt::Write>(&self, f: &mut fmt::Formatter<W>) -> fmt::Result {
        match self {
            Line::Load { count, refusal } => write!(f, "load {count} {refusal}"),
            Line::Run {
                refusal,
                used,
                record,
            } => write!(f, "run {refusal}{}{}", ByteWords(used), ByteWords(record)),
            Line::Fresh(record) => write!(f, "fresh{}", ByteWords(record)),
            Line::Frame { refusal, record } => { write!(f, "frame {refusal}{}", ByteWords(record)) }
            Line::Reset(record) => write!(f, "reset{}", ByteWords(record)),
            Line::Given(record) => write!(f, "given{}", ByteWords(record)),
        }
    }
}
