// Reading a stream by parts of a known length, and by records.
#![tactic(auto)]

ghost use Rattle.std.specs.Prelude.{◌<◌, ◌≤◌, length, take, IfOk};
ghost use Rattle.std.specs.Io.KnownBytes.{Consumes, IsAtEnd};

mod part;
mod read;
mod records;

pub use part::Part;
pub use read::{
    NoRecord, read_array, read_bytes, read_counted, read_padded, read_padded_part, read_word,
    read_words,
};
pub use records::{Record, Records};
use std::io;
use std::io::Read;

// Reads until the buffer is full or the input ends, and answers how many bytes it put at the buffer's start.
// Stays: Consumes in each clause. It is a fact about the stream before and after, which no value holds.
pub fn read_full<R: Read>(input: &mut R, buffer: &mut [u8]) -> io::Result<usize>
    ensures bound { IfOk result (λ n. n ≤ length buffer.new) }
    ensures bytes { IfOk result (λ n. Consumes (R.remaining input.old) (R.remaining input.new) (take n buffer.new)) }
    ensures end { IfOk result (λ n. n < length buffer.new → IsAtEnd (R.remaining input.new)) }
{
    let mut got = 0;
    // Stays: a loop of its own. read_exact does not tell how many bytes came before the end.
    while got < buffer.len() {
        let n = input.read(&mut buffer[got..])?;
        if n == 0 {
            break;
        }
        got += n;
    }
    Ok(got)
}

#[cfg(test)]
mod tests {
    use super::*;
    use std::test::Fail;

    #[test]
    fn parts_end_with_the_shorter_one(rt: HostRuntime) -> Result<(), Fail> {
        let mut lengths = Vec::new(rt.alloc());
        for part in Records::<_, Part<4>>::new(b"0123456789".as_slice(), rt.alloc()) {
            lengths.push(part?.bytes().len())?;
        }
        assert_eq!(rt; lengths.as_slice(), [4, 4, 2].as_slice());
        Ok(())
    }

    // Two bytes, the end, and four bytes more, as a terminal gives them.
    #[derive(Drop)]
    struct Terminal(u8);

    impl Read for Terminal {
        fn read(&mut self, buffer: &mut [u8]) -> io::Result<usize> {
            self.0 = self.0.saturating_add(1);
            let count = match self.0 {
                1 => 2,
                2 => 0,
                _ => 4,
            };
            Ok(count.min(buffer.len()))
        }
    }

    #[test]
    fn nothing_is_read_after_the_shorter_one(rt: HostRuntime) -> Result<(), Fail> {
        let mut parts = Records::<_, Part<4>>::new(Terminal(0), rt.alloc());
        let shorter = parts.next().ok_or("a part")??;
        assert_eq!(rt; shorter.bytes().len(), 2);
        assert!(rt; parts.next().is_none());
        Ok(())
    }

    #[test]
    fn words_cut_short_are_none(rt: HostRuntime) -> Result<(), Fail> {
        let mut records = Records::<_, [u32; 1]>::new(b"\x01\x02\0\0\x03".as_slice(), rt.alloc());
        let first = records.next().ok_or("a word")??;
        assert_eq!(rt; first[0], 513);
        assert!(rt; records.next().is_none());
        Ok(())
    }

    #[test]
    fn counted_bytes(rt: HostRuntime) -> Result<(), Fail> {
        let mut input = b"\x02\0\0\0ab\x03\0\0\0abc".as_slice();
        let mut room = [0; 2];
        let Ok(count) = read_counted(&mut input, &mut room) else {
            return Err(Fail::from("two bytes"));
        };
        assert_eq!(rt; count, 2);
        assert_eq!(rt; room, *b"ab");
        assert!(rt;
            read_counted(&mut input, &mut room).is_err(),
            "three are too many"
        );
        Ok(())
    }

    #[test]
    fn bytes_are_read_whole(rt: HostRuntime) -> Result<(), Fail> {
        let mut input = b"abcde".as_slice();
        let Ok(bytes) = read_bytes(&mut input, rt.alloc(), 3) else {
            return Err(Fail::from("three bytes"));
        };
        assert_eq!(rt; bytes.as_slice(), b"abc".as_slice());
        assert!(rt;
            read_bytes(&mut input, rt.alloc(), 3).is_err(),
            "two are left"
        );
        Ok(())
    }

    #[test]
    fn padded_bytes(rt: HostRuntime) -> Result<(), Fail> {
        let mut input = b"\x02\0\0\0abcd\x05\0\0\0abcd".as_slice();
        let Ok(Some(bytes)) = read_padded(&mut input, rt.alloc(), 4) else {
            return Err(Fail::from("two bytes"));
        };
        assert_eq!(rt; bytes.as_slice(), b"ab".as_slice());
        let Ok(none) = read_padded(&mut input, rt.alloc(), 4) else {
            return Err(Fail::from("a record"));
        };
        assert!(rt; none.is_none(), "five are too many");
        Ok(())
    }

    #[test]
    fn padded_parts(rt: HostRuntime) -> Result<(), Fail> {
        let mut input = b"\x02\0\0\0abcd\x05\0\0\0abcd".as_slice();
        let Ok(Some(bytes)) = read_padded_part::<_, 4>(&mut input) else {
            return Err(Fail::from("two bytes"));
        };
        assert_eq!(rt; bytes.bytes(), b"ab".as_slice());
        let Ok(none) = read_padded_part::<_, 4>(&mut input) else {
            return Err(Fail::from("a record"));
        };
        assert!(rt; none.is_none(), "five are too many");
        Ok(())
    }
}
