// Which word made a frame bad: frames of 416 bytes from standard input, one after another, and a line each: the number that the walk of checks
// 2 to 5 keeps after each word, one digit a word. A shorter last part is a frame refused with 1, and its line is 1.
#![tactic(auto)]

mod line;

use area::FRAME;
use line::line_of;
use std::io;
use std::io::{LineWriter, Write};
use streams::{Part, Records};

fn main(rt: HostRuntime) -> io::Result<()> {
    let mut out = LineWriter::new(rt.alloc(), io::writer(&rt))?;
    for frame in Records::<_, Part<FRAME>>::new(rt.reader(), rt.alloc()) {
        let frame = frame?;
        let bytes = frame.bytes();
        if bytes.len() < FRAME {
            writeln!(out, "1")?;
        } else {
            out.write_all(&line_of(bytes))?;
        }
    }
    Ok(())
}
