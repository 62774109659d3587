// Runs stored loads of tables and calls under them, and prints each with its answer. A record on standard input begins
// with a word: 1 for a load, 2 for an exp, 3 for a step, 4 for a frame, 5 for a reset; `call` says what follows. A table
// that loads serves from then on, and T at first and after one that is refused. Any other word, or a record cut short, ends
// the run. What is printed is held to the answers of an independent program (oracle/).
#![tactic(auto)]

mod call;
mod line;
mod loaded;
mod run;

use call::Call;
use run::Run;
use std::io;
use std::io::{LineWriter, Write};
use streams::{NoRecord, Records};

// Stays: alike in replay_runs and replay_drawers but for its types. One for all would need a trait, which only they would have.
fn main(rt: HostRuntime) -> io::Result<()> {
    let mut out = LineWriter::new(rt.alloc(), io::writer(&rt))?;
    let mut run = Run::default();
    let mut calls = Records::<_, Call>::new(rt.reader(), rt.alloc());
    // A proved loop has to end, and nothing says that the input does: it has more turns than any run takes.
    for _ in 0..u64::MAX {
        let Some(call) = calls.next() else {
            break;
        };
        match run.replay(call?, calls.input()) {
            Ok(line) => writeln!(out, "{line}")?,
            Err(NoRecord::Over) => break,
            Err(NoRecord::Failed(error)) => return Err(error),
        }
    }
    Ok(())
}
