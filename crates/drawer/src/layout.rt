// A buffer as records of WIDTH words: record 0 has the heads of the chains, any other its next index, its id and a state's record.
ghost use Rattle.std.specs.Prelude.{◌≡◌, true, false, ◌+◌, ◌*◌, ◌<◌, ◌≤◌, length, IfSome, IfNone};
ghost use Rattle.words.specs.Words.{word_at};
ghost use Rattle.drawer.specs.Drawer.{records_of, is_whole, id_in, is_state};
ghost use Rattle.drawer.specs.Search.{is_record};
ghost use Rattle.drawer.specs.Tours.{IsWidth, Sized};

use words::{long_of, word, word_in};

/// The chain of the free records, the last of 17, whose heads are the first words. The other 16 are picked by the id's lowest four bits.
pub const FREE: u32 = 16;

/// The word that has the length of a record.
pub const LENGTH: u32 = 17;

// Stays: a width as a parameter. The laws hold of any from 42 to 64, and a number would be computed with in their proofs.
#[derive(Clone, Copy)]
pub struct Records<'a, const WIDTH: u32> {
    pub bytes: &'a [u8],
    // Stays: the count beside the bytes. It is their length divided, once, and the ghost field ties the two.
    pub count: u32,
    ghost sized: { Sized WIDTH count bytes.now },
    ghost some: { 0 < count },
}

impl<'a, const WIDTH: u32> Records<'a, WIDTH> {
    /// The records of a buffer, if it is a whole number of them.
    #[tactic(auto, using(crate::proofs::SizeLaws::whole_parts))]
    pub fn of(bytes: &'a [u8]) -> Option<Self>
        requires { IsWidth WIDTH }
        ensures whole { IfSome result (λ records.
            (records.bytes.now ≡ bytes.now)
            × (records.count ≡ records_of WIDTH (length bytes.now))
            × (is_whole WIDTH (length bytes.now) ≡ true)) }
        ensures part { IfNone result (is_whole WIDTH (length bytes.now) ≡ false) }
    {
        let count = count_of::<WIDTH>(bytes.len())?;
        Some(Records { bytes, count })
    }

    pub fn word(&self, i: u32) -> u32
        requires { 4 * i + 4 ≤ length self.now.bytes.now }
        ensures { result ≡ word_at self.now.bytes.now i }
    {
        word_in(self.bytes, i)
    }

    /// The index of a chain's first record, or 0.
    pub fn head(&self, chain: u32) -> u32
        ensures { result ≡ word_at self.now.bytes.now chain }
    {
        word(self.bytes, chain)
    }

    /// The record that an index in a chain names, if there is one.
    pub fn record(&self, index: u32) -> Option<Record<'a, WIDTH>>
        ensures named { IfSome result (λ named.
            (named.records ≡ self.now) × (named.index ≡ index) × (is_record self.now.count index ≡ true)) }
        ensures none { IfNone result (is_record self.now.count index ≡ false) }
    {
        if 0 < index && index < self.count {
            return Some(Record {
                records: *self,
                index,
            });
        }
        None
    }
}

/// A record of a buffer.
#[derive(Clone, Copy)]
pub struct Record<'a, const WIDTH: u32> {
    records: Records<'a, WIDTH>,
    index: u32,
    ghost there: { index < records.count },
}

impl<const WIDTH: u32> Record<'_, WIDTH> {
    /// The word that has the index of the next record of its chain.
    pub fn link(&self) -> u32
        ensures link { result ≡ WIDTH * self.now.index }
        ensures room { 4 * result + 4 ≤ length self.now.records.bytes.now }
    {
        WIDTH * self.index
    }

    pub fn next(&self) -> u32
        ensures { result ≡ word_at self.now.records.bytes.now (WIDTH * self.now.index) }
    {
        word_in(self.records.bytes, self.link())
    }

    #[tactic(auto, unfolding(crate::specs::Drawer::id_in))]
    pub fn id(&self) -> u64
        ensures { result ≡ id_in WIDTH (word_at self.now.records.bytes.now) self.now.index }
    {
        let first = WIDTH * self.index;
        let low = word_in(self.records.bytes, first + 1);
        let high = word_in(self.records.bytes, first + 2);
        long_of(low, high)
    }

    /// The state's flags are flags.
    #[tactic(auto, unfolding(crate::specs::Drawer::is_state))]
    pub fn is_state(&self) -> bool
        ensures { result ≡ is_state WIDTH (word_at self.now.records.bytes.now) self.now.index }
    {
        !records::is_damaged(self.records.bytes, WIDTH * self.index + 3)
    }
}

/// How many records so many bytes are, if they are a whole number of them, from 1 to 65,536.
#[tactic(auto, unfolding(crate::specs::Drawer::is_whole))]
pub fn count_of<const WIDTH: u32>(len: usize) -> Option<u32>
    requires { 0 < WIDTH }
    ensures whole { IfSome result (λ count. (count ≡ records_of WIDTH len) × (is_whole WIDTH len ≡ true)) }
    ensures part { IfNone result (is_whole WIDTH len ≡ false) }
{
    let length = 4 * (WIDTH as usize);
    let count = u32::try_from(len / length).ok()?;
    (len % length == 0 && (1..=65536).contains(&count)).then_some(count)
}
