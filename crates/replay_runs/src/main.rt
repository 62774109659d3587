// Runs stored calls of the library that a panel links: the load of a table, settling runs, and lists of frames and resets;
// and prints what each answers and leaves in the state's record, and of a run in used. A call on standard input begins with a
// word: 1 for a load, 2 for a run by T, 3 for a run under the table as the loads before it left it, zeros at first; and on one
// state's record that is kept, zeros at first, 4 for a fresh one, 5 for a frame, 6 for a reset, 7 for one that is given. The
// file call says what follows. Any other word, or a call cut short, ends the program. What is printed is held to the answers of
// an independent program (oracle/).
#![tactic(auto)]

mod call;
mod line;
mod panel;

use call::Call;
use panel::Panel;
use std::io;
use std::io::{LineWriter, Write};
use streams::{NoRecord, Records};

fn main(rt: HostRuntime) -> io::Result<()> {
    let mut out = LineWriter::new(rt.alloc(), io::writer(&rt))?;
    let mut panel = Panel::default();
    let mut calls = Records::<_, Call>::new(rt.reader(), rt.alloc());
    // A proved loop has to end, and nothing says that the input does: it has more turns than any run takes.
    for _ in 0..u64::MAX {
        let Some(call) = calls.next() else {
            break;
        };
        match panel.replay(call?, calls.input()) {
            Ok(line) => writeln!(out, "{line}")?,
            Err(NoRecord::Over) => break,
            Err(NoRecord::Failed(error)) => return Err(error),
        }
    }
    Ok(())
}
