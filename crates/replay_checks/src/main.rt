// Runs checks 1 to 6 and 12 on stored frames and states and prints each answer, with the word that made the frame bad, or
// 0. A record on standard input is a word, the frame's length; 424 bytes that begin with the frame; and the state, 39
// words in the order of its fields, an f64 as low word and high word, an option as a flag and its words. What is
// printed is held to the answers of an independent program (oracle/).
#![tactic(auto)]

mod stored;

use std::io;
use std::io::{LineWriter, Write};
use stored::Stored;
use streams::Records;

fn main(rt: HostRuntime) -> io::Result<()> {
    let mut out = LineWriter::new(rt.alloc(), io::writer(&rt))?;
    let mut records = Records::<_, Stored>::new(rt.reader(), rt.alloc());
    records.try_for_each(|stored| writeln!(out, "{}", stored?.judged()))
}
