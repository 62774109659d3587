// The ids along a chain.
ghost use Rattle.std.specs.Prelude.{◌≡◌, ◌<◌, eqb};
ghost use Rattle.std.specs.List.{list_any};
ghost use Rattle.words.specs.Words.{word_at};
ghost use Rattle.drawer.specs.Tours.{ids_from, holds_twice};
ghost use Rattle.drawer.specs.IdsLeft.{ids_left};

use crate::layout::Records;

/// From one record on, at most so many as are left.
#[derive(Clone, Copy)]
pub struct Ids<'a, const WIDTH: u32> {
    records: Records<'a, WIDTH>,
    next: u32,
    // Stays: counted down. A chain of a buffer that is not yet a drawer may be a ring.
    left: u32,
}

// Stays: a walk of its own, as seek and tour. They answer the link before a record, and what no record shows: an end or a bad index.
impl<const WIDTH: u32> Iterator for Ids<'_, WIDTH> {
    type Item = u64;

    ghost use Rattle.std.specs.Iterator.{YieldsFirst, item_count};

    ghost next_gives = { YieldsFirst ids_left };

    ghost remaining = { item_count ids_left };

    #[tactic(auto, unfolding(crate::specs::Tours::ids_from))]
    fn next(&mut self) -> Option<u64> {
        if self.left == 0 {
            return None;
        }
        let record = self.records.record(self.next)?;
        self.left -= 1;
        self.next = record.next();
        Some(record.id())
    }
}

impl<const WIDTH: u32> Ids<'_, WIDTH> {
    /// Whether an id is still to come.
    fn contains(&self, id: u64) -> bool
        ensures { result ≡ list_any (λ y. eqb y id) (ids_left self.now) }
    {
        let mut ids = *self;
        ids.any(|other| other == id)
    }
}

impl<'a, const WIDTH: u32> Records<'a, WIDTH> {
    /// The ids of a chain, whether or not it ends.
    fn ids(&self, chain: u32) -> Ids<'a, WIDTH>
        ensures { let w = word_at self.now.bytes.now in let n = self.now.count in ids_left result ≡ ids_from WIDTH w n n (w chain) }
    {
        Ids {
            records: *self,
            next: self.head(chain),
            left: self.count,
        }
    }

    /// Whether a chain holds an id twice: each is compared with those after it.
    #[tactic(auto, unfolding(crate::specs::Tours::holds_twice))]
    pub fn is_twice(&self, chain: u32) -> bool
        ensures { let w = word_at self.now.bytes.now in let n = self.now.count in result ≡ holds_twice (ids_from WIDTH w n n (w chain)) }
    {
        let mut ids = self.ids(chain);
        while let Some(id) = ids.next() {
            if ids.contains(id) {
                return true;
            }
        }
        false
    }
}
