// The listing that the test bench reads: frames of 416 bytes from standard input, one after another from a fresh state,
// and a line each. A shorter last part is a frame refused with 1; after a refusal the line shows the state as given. The
// first call is by value, the second lent, and so on by turns. An argument names the file of a table that serves in the
// place of T; where it is refused, its number is all that is printed.
#![tactic(auto)]

mod line;
mod table_file;

use line::Line;
use listing::Answers;
use std::io::{LineWriter, Read, Write};
use std::rt::Files;
use std::{env, io};
use table_file::{ROOM, read_table};

// The listing under a table; no bytes stand for T.
// Stays: the table as bytes, as in Answers: an Option would be turned into them at once.
fn list_frames<R: Read + Drop, W: Write>(input: R, table: &[u8], out: &mut W) -> io::Result<()> {
    for answer in Answers::new(input, table) {
        let line = Line::from(answer?);
        write!(out, "{line}")?;
    }
    Ok(())
}

// Under a table that loads, the listing; else the number of its refusal alone.
fn list_by<R: Read + Drop, W: Write>(input: R, table: &[u8], out: &mut W) -> io::Result<()> {
    match numbers::check_table(table) {
        Ok(()) => list_frames(input, table, out),
        Err(refusal) => writeln!(out, "{refusal}"),
    }
}

// Standard error alone tells of a file that cannot be read, and the exit status is 0 all the same.
fn list_by_file<F: Files + Eprint, R: Read + Drop, W: Write>(
    rt: &F,
    path: &str,
    input: R,
    out: &mut W,
) -> io::Result<()> {
    let mut room = [0; ROOM];
    match read_table(rt, path, &mut room) {
        Ok(count) => list_by(input, &room[..count], out),
        Err(error) => {
            // A standard error that is closed changes nothing.
            let _ = rt.eprintln(format_args!("{path}: {error}"));
            Ok(())
        }
    }
}

// More than one argument is a mistake: no listing is better than one under a table that was not meant. Standard error
// alone tells of it, and the exit status is 0 all the same.
fn main(rt: HostRuntime) -> io::Result<()> {
    let mut out = LineWriter::new(rt.alloc(), io::writer(&rt))?;
    // The program's name among them.
    let mut arguments = env::args(&rt)?;
    if arguments.len() > 2 {
        return eprintln!(rt; "usage: frames [TABLE]");
    }
    match arguments.nth(1) {
        Some(path) => list_by_file(&rt, path.as_str(), rt.reader(), &mut out),
        None => list_frames(rt.reader(), b"", &mut out),
    }
}
