// A part of N bytes, or the shorter last one.
ghost use Rattle.std.specs.Prelude.{◌≡◌, ◌<◌, ◌≤◌, Some, take, IfOk, IfSome, IsNone, IsErrOf, nat_lt};
ghost use Rattle.std.specs.Io.KnownBytes.{Consumes, IsAtEnd};
ghost use Rattle.streams.specs.declared.read.NoRecord.TheVariants.{Over};

use crate::{NoRecord, Record, read_full};
use std::alloc::Global;
use std::io::Read;

#[derive(Clone, Copy)]
pub struct Part<const N: usize> {
    room: [u8; N],
    count: usize,
    ghost within: { count ≤ N },
}

impl<const N: usize> Part<N> {
    /// The first bytes of a room; None where it has fewer.
    pub fn first(room: [u8; N], count: usize) -> Option<Self>
        ensures some { IfSome result (λ part. (part.room ≡ room.entry) × (part.count ≡ count)) }
        ensures none { IsNone result → N < count }
    {
        if N < count {
            return None;
        }
        Some(Part { room, count })
    }

    pub fn bytes(&self) -> &[u8]
        ensures { result.now ≡ take self.now.count self.now.room }
    {
        &self.room[..self.count]
    }
}

impl<const N: usize> Record for Part<N> {
    ghost bytes_of = { λ part. Some (take part.count part.room) };

    // A shorter part is the last.
    fn is_last(&self) -> bool
        ensures { result ≡ nat_lt self.now.count N }
    {
        self.count < N
    }

    fn read<R: Read>(input: &mut R, _alloc: Global) -> Result<Self, NoRecord>
        ensures bytes { IfOk result (λ part. Consumes (R.remaining input.old) (R.remaining input.new) (take part.count part.room)) }
        ensures count { IfOk result (λ part. (0 < part.count) × (part.count ≤ N)) }
        ensures shorter { IfOk result (λ part. part.count < N → IsAtEnd (R.remaining input.new)) }
        ensures over { IsErrOf result Over → 0 < N → IsAtEnd (R.remaining input.new) }
    {
        let mut room = [0; N];
        let count = read_full(input, &mut room)?;
        if count == 0 {
            return Err(NoRecord::Over);
        }
        Ok(Part { room, count })
    }
}
