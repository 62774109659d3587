// The table's file, which the program's argument names.
ghost use Rattle.std.specs.Prelude.{◌≤◌, IfOk};

use numbers::TABLE;
use std::fs::File;
use std::io;
use std::rt::Files;

// A byte more than a table has, so that a longer file shows.
pub const ROOM: usize = TABLE + 1;

// How many of the file's bytes there are, as far as there is room, at the room's start.
pub fn read_table<R: Files>(files: &R, path: &str, room: &mut [u8; ROOM]) -> io::Result<usize>
    ensures { IfOk result (λ count. count ≤ ROOM) }
{
    let mut file = File::open(files, path)?;
    streams::read_full(&mut file, room)
}
