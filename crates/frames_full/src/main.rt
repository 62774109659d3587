// Every word of every answer: frames of 416 bytes from standard input, one after another from a fresh state, and a line
// each: the refusal, the 39 words of the state, the 25 words of the outputs. It is held to the oracle's answers.
// The first call is by value, the second lent, and so on by turns.
#![tactic(auto)]

ghost use Rattle.std.specs.Prelude.{◌≡◌};
ghost use Rattle.words.specs.Words.{bytes_of};
ghost use Rattle.area.specs.Outcome.{lent_outcome_in};
ghost use Rattle.records.specs.Record.{out_words};

use area::{Outputs, State};
use listing::{Answer, Answers, ByteWords};
use records::{OUTPUTS, STATE};
use refusals::{Refusal, number};
use std::io::{LineWriter, Write};
use std::{fmt, io};

#[derive(Clone, Copy)]
struct Line(Answer);

impl fmt::Display for Line {
    fn fmt<W: fmt::Write>(&self, f: &mut fmt::Formatter<W>) -> fmt::Result {
        let Line(Answer { state, outputs }) = *self;
        let refusal = number(&outputs);
        let mut state_bytes = [0; STATE];
        records::put_state(&mut state_bytes, state);
        let output_bytes = put_out(state, outputs);
        let (state, outputs) = (ByteWords(&state_bytes), ByteWords(&output_bytes));
        writeln!(f, "{refusal}{state}{outputs}")
    }
}

// A refused frame puts nothing out: zeros.
#[tactic(auto, using(crate::proofs::OutputLaws::of_refused))]
fn put_out(state: State, outputs: Result<Outputs, Refusal>) -> [u8; OUTPUTS]
    ensures { result ≡ bytes_of (out_words (lent_outcome_in state outputs)) }
{
    let mut bytes = [0; OUTPUTS];
    let Ok(outputs) = outputs else {
        return bytes;
    };
    records::put_outcome(&mut bytes, outputs);
    bytes
}

fn main(rt: HostRuntime) -> io::Result<()> {
    let mut out = LineWriter::new(rt.alloc(), io::writer(&rt))?;
    // By T: no bytes stand for it.
    for answer in Answers::new(rt.reader(), b"") {
        let line = Line(answer?);
        write!(out, "{line}")?;
    }
    Ok(())
}
