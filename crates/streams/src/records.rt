// Records, one after another, until the input holds no more.
ghost use Rattle.std.specs.Prelude.{◌≡◌, ℕ, List, Option, Some, None, IfOk, IfSome};
ghost use Rattle.std.specs.Int.{w32, to_le_bytes};
ghost use Rattle.std.specs.Iterator.{at_most};
ghost use Rattle.std.specs.List.{flat_map};
ghost use Rattle.std.specs.Io.KnownBytes.{Consumes};

use crate::{NoRecord, read_array, read_words};
use std::alloc::Global;
use std::io;
use std::io::Read;
use std::marker::PhantomData;

pub trait Record: Sized {
    // The bytes that a record is read from, or None where the type does not say.
    ghost bytes_of: { Self → Option (List ℕ) } = { λ _. None };

    // Whether the input ended with it. It is then asked no more: an input that was at its end may go on, as a terminal's does.
    fn is_last(&self) -> bool {
        false
    }

    fn read<R: Read>(input: &mut R, alloc: Global) -> Result<Self, NoRecord>
        ensures { IfOk result (λ x. IfSome (bytes_of x) (Consumes (R.remaining input.old) (R.remaining input.new))) };
}

impl<const N: usize> Record for [u8; N] {
    ghost bytes_of = { λ bytes. Some bytes };

    fn read<R: Read>(input: &mut R, _alloc: Global) -> Result<Self, NoRecord> {
        read_array(input)
    }
}

impl<const N: usize> Record for [u32; N] {
    ghost bytes_of = { λ words. Some (flat_map (to_le_bytes w32) words) };

    fn read<R: Read>(input: &mut R, _alloc: Global) -> Result<Self, NoRecord> {
        read_words(input)
    }
}

#[derive(Drop)]
pub struct Records<R, T> {
    input: R,
    alloc: Global,
    // A proved loop has to end, and nothing says that the input does: these are more than any run reads.
    // Stays: counted down, as the line above says.
    left: u64,
    of: PhantomData<T>,
}

impl<R: Read + Drop, T: Record> Records<R, T> {
    pub fn new(input: R, alloc: Global) -> Self {
        Records {
            input,
            alloc,
            left: u64::MAX,
            of: PhantomData,
        }
    }

    /// For what follows a record that its own type does not read.
    pub fn input(&mut self) -> &mut R
        ensures { result.now ≡ self.old.input }
    {
        &mut self.input
    }
}

impl<R: Read + Drop, T: Record> Iterator for Records<R, T> {
    type Item = io::Result<T>;

    // Each is read from where the one before it ended.
    ghost next_gives = { λ s answer t. IfSome answer (λ read. IfOk read (λ x. IfSome (T.bytes_of x) (Consumes (R.remaining s.input) (R.remaining t.input)))) };

    ghost remaining = { λ s. at_most s.left };

    fn next(&mut self) -> Option<io::Result<T>> {
        if self.left == 0 {
            return None;
        }
        self.left -= 1;
        match T::read(&mut self.input, self.alloc) {
            Ok(record) => {
                if record.is_last() {
                    self.left = 0;
                }
                Some(Ok(record))
            }
            Err(NoRecord::Over) => None,
            Err(NoRecord::Failed(error)) => Some(Err(error)),
        }
    }
}
