// Runs stored calls of the numbers and prints each with its answer. A call on standard input is nine
// words: its number, as in `call`, and eight operands; an f64 is two of them, the high one first.
// What is printed is held to the answers of an independent program (oracle/).
#![tactic(auto)]

mod answer;
mod call;

use call::Call;
use listing::Words;
use std::alloc::Global;
use std::io;
use std::io::{LineWriter, Read, Write};
use streams::{NoRecord, Record, Records, read_array};

#[derive(Clone, Copy)]
struct Stored {
    call: Call,
    operands: [u32; 8],
}

impl Record for Stored {
    fn read<R: Read>(input: &mut R, _alloc: Global) -> Result<Self, NoRecord> {
        let record: [u8; 36] = read_array(input)?;
        Ok(Stored {
            call: Call::from(words::word_in(&record, 0)),
            operands: [1, 2, 3, 4, 5, 6, 7, 8].map(|i| words::word(&record, i)),
        })
    }
}

// The call's name, its operands, and after "=" its answer.
fn main(rt: HostRuntime) -> io::Result<()> {
    let mut out = LineWriter::new(rt.alloc(), io::writer(&rt))?;
    for stored in Records::<_, Stored>::new(rt.reader(), rt.alloc()) {
        let Stored { call, operands } = stored?;
        let answer = call.answer(operands);
        let taken = Words(&operands[..call.operand_count()]);
        writeln!(out, "{call}{taken} ={answer}")?;
    }
    Ok(())
}
