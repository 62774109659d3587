// The line of a call: its name, the refusal or 0, the buffer's mark after the call, and of a load the mark of the state's record
// that it was lent.
use std::fmt;

// Stays: the refusal as the number that the line shows, 0 for none. An Option would be turned into it where it is written, and nowhere else read.
#[derive(Clone, Copy)]
pub struct Line {
    pub name: &'static str,
    pub refusal: u32,
    pub buffer: u32,
    pub state: Option<u32>,
}

impl fmt::Display for Line {
    fn fmt<W: fmt::Write>(&self, f: &mut fmt::Formatter<W>) -> fmt::Result {
        let Line {
            name,
            refusal,
            buffer,
            state,
        } = *self;
        write!(f, "{name} {refusal} {buffer:08x}")?;
        match state {
            Some(mark) => write!(f, " {mark:08x}"),
            None => Ok(()),
        }
    }
}

// A word that stands for all the bytes on a short line.
pub fn mark_of(bytes: &[u8]) -> u32 {
    bytes.iter().fold(2166136261, |mark: u32, byte| {
        mark.wrapping_mul(16777619).wrapping_add(u32::from(*byte))
    })
}
