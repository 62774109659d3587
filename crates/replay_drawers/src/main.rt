// Runs stored calls on a drawer, through the library that a panel links, and prints of each what it answers and the mark of the
// buffer after it. One buffer is kept, of no bytes at first. A call on standard input begins with a word: 1 for a buffer that is
// given, 2 for four bytes that are put into it, 3 for a lay, 4 for a save, 5 for a load, 6 for a forget; the file call says what
// follows. Any other word, or a call cut short, ends the program. What is printed is held to the answers of an independent
// program (oracle/).
#![tactic(auto)]

mod call;
mod line;
mod panel;

use call::Call;
use panel::Panel;
use std::io;
use std::io::{LineWriter, Write};
use streams::{NoRecord, Records};

fn main(rt: HostRuntime) -> io::Result<()> {
    let mut out = LineWriter::new(rt.alloc(), io::writer(&rt))?;
    let mut panel = Panel::default();
    let mut calls = Records::<_, Call>::new(rt.reader(), rt.alloc());
    // A proved loop has to end, and nothing says that the input does: it has more turns than any run takes.
    for _ in 0..u64::MAX {
        let Some(call) = calls.next() else {
            break;
        };
        match panel.replay(call?, calls.input()) {
            Ok(line) => writeln!(out, "{line}")?,
            Err(NoRecord::Over) => break,
            Err(NoRecord::Failed(error)) => return Err(error),
        }
    }
    Ok(())
}
