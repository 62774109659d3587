// What is read whole or not at all.
ghost use Rattle.std.specs.Prelude.{IfOk, IfSome, IsNone, IsErrOf, length, take, vec_len, ◌≡◌, ◌≢◌, ◌≤◌, ◌++◌};
ghost use Rattle.std.specs.Int.{w32, to_le_bytes};
ghost use Rattle.std.specs.List.{flat_map};
ghost use Rattle.std.specs.Io.KnownBytes.{Consumes};
ghost use Rattle.streams.specs.declared.read.NoRecord.TheVariants.{Failed, Over};
ghost use Rattle.streams.specs.Reading.{IsCutShort, IsPadded, IsTooLong};

use crate::{Part, read_full};
use std::alloc::{AllocError, Global};
use std::io;
use std::io::Read;

/// Why no record comes.
#[derive(Debug, Drop)]
pub enum NoRecord {
    /// The input is over or cut short, or what it holds is no record.
    Over,
    Failed(io::Error),
}

impl From<io::Error> for NoRecord {
    ghost from_gives = { λ error none. none ≡ Failed error };

    fn from(error: io::Error) -> Self {
        NoRecord::Failed(error)
    }
}

impl From<AllocError> for NoRecord {
    ghost from_gives = { λ _ none. none ≢ Over };

    fn from(error: AllocError) -> Self {
        NoRecord::Failed(io::Error::from(error))
    }
}

pub fn read_array<R: Read, const N: usize>(input: &mut R) -> Result<[u8; N], NoRecord>
    ensures whole { IfOk result (λ bytes. Consumes (R.remaining input.old) (R.remaining input.new) bytes) }
    ensures over { IsErrOf result Over → IsCutShort (R.remaining input.old) (R.remaining input.new) N }
{
    let mut bytes = [0; N];
    fill(input, &mut bytes)?;
    Ok(bytes)
}

/// A little-endian word of 32 bits.
pub fn read_word<R: Read>(input: &mut R) -> Result<u32, NoRecord>
    ensures whole { IfOk result (λ word. Consumes (R.remaining input.old) (R.remaining input.new) (to_le_bytes w32 word)) }
    ensures over { IsErrOf result Over → IsCutShort (R.remaining input.old) (R.remaining input.new) 4 }
{
    Ok(u32::from_le_bytes(read_array(input)?))
}

pub fn read_words<R: Read, const N: usize>(input: &mut R) -> Result<[u32; N], NoRecord>
    ensures { IfOk result (λ words. Consumes (R.remaining input.old) (R.remaining input.new) (flat_map (to_le_bytes w32) words)) }
{
    let mut words = [0; N];
    for word in words.iter_mut() {
        *word = read_word(input)?;
    }
    Ok(words)
}

/// `count` bytes, on the heap.
pub fn read_bytes<R: Read>(input: &mut R, alloc: Global, count: usize) -> Result<Vec<u8>, NoRecord>
    ensures whole { IfOk result (λ v. Consumes (R.remaining input.old) (R.remaining input.new) v.items) }
    ensures counts { IfOk result (λ v. vec_len v ≡ count) }
    ensures over { IsErrOf result Over → IsCutShort (R.remaining input.old) (R.remaining input.new) count }
{
    let mut bytes = vec![in alloc; 0; count]?;
    fill(input, &mut bytes)?;
    Ok(bytes)
}

// The whole buffer, or Over where the input ends before that.
fn fill<R: Read>(input: &mut R, buffer: &mut [u8]) -> Result<(), NoRecord>
    ensures whole { IfOk result (λ _. Consumes (R.remaining input.old) (R.remaining input.new) buffer.new) }
    ensures over { IsErrOf result Over → IsCutShort (R.remaining input.old) (R.remaining input.new) (length buffer.new) }
{
    if read_full(input, buffer)? < buffer.len() {
        return Err(NoRecord::Over);
    }
    Ok(())
}

/// A word n, at most as many as there is room for, and n bytes, which go to the room's start.
pub fn read_counted<R: Read>(input: &mut R, room: &mut [u8]) -> Result<usize, NoRecord>
    ensures counted { IfOk result (λ n. Consumes (R.remaining input.old) (R.remaining input.new) (to_le_bytes w32 n ++ take n room.new)) }
    ensures most { IfOk result (λ n. n ≤ length room.new) }
{
    let count = read_word(input)? as usize;
    if room.len() < count {
        return Err(NoRecord::Over);
    }
    fill(input, &mut room[..count])?;
    Ok(count)
}

/// A word n, and `room` bytes that begin with n; None where n is more than there are.
pub fn read_padded<R: Read>(
    input: &mut R,
    alloc: Global,
    room: usize,
) -> Result<Option<Vec<u8>>, NoRecord>
    ensures some { IfOk result (λ read. IfSome read (λ bytes. IsPadded (R.remaining input.old) (R.remaining input.new) room bytes.items)) }
    ensures none { IfOk result (λ read. IsNone read → IsTooLong (R.remaining input.old) (R.remaining input.new) room) }
{
    let count = read_word(input)? as usize;
    let mut bytes = read_bytes(input, alloc, room)?;
    if room < count {
        return Ok(None);
    }
    bytes.truncate(count);
    Ok(Some(bytes))
}

/// The same of ROOM bytes, into an array.
pub fn read_padded_part<R: Read, const ROOM: usize>(
    input: &mut R,
) -> Result<Option<Part<ROOM>>, NoRecord>
    ensures some { IfOk result (λ read. IfSome read (λ part. IsPadded (R.remaining input.old) (R.remaining input.new) ROOM (take part.count part.room))) }
    ensures none { IfOk result (λ read. IsNone read → IsTooLong (R.remaining input.old) (R.remaining input.new) ROOM) }
{
    let count = read_word(input)? as usize;
    let room = read_array(input)?;
    Ok(Part::first(room, count))
}
