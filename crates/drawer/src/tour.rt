// The check's way along a chain, each record once.
ghost use Rattle.std.specs.Prelude.{◌≡◌, true};
ghost use Rattle.words.specs.Words.{word_at};
ghost use Rattle.drawer.specs.Tours.{suits, tour_from};

use crate::layout::{FREE, Record, Records};

/// A chain that ends, and whose records may all stand there. up: its ids ascend.
#[derive(Clone, Copy)]
pub struct Tour {
    pub count: u32,
    pub last: u32,
    pub up: bool,
}

impl<const WIDTH: u32> Records<'_, WIDTH> {
    pub fn tour(&self, chain: u32) -> Option<Tour>
        ensures { let w = word_at self.now.bytes.now in let n = self.now.count in result ≡ tour_from WIDTH w n chain n (w chain) 0 0 0 true }
    {
        let mut next = self.head(chain);
        // Stays: 0 for no record yet. The definition's walk starts from zeros, and the loop's invariant would turn an Option into them.
        let mut last = 0;
        let mut previous = 0;
        let mut up = true;
        for count in 0..self.count {
            if next == 0 {
                return Some(Tour { count, last, up });
            }
            let record = self.record(next)?;
            if !record.suits(chain) {
                return None;
            }
            let id = record.id();
            up = up && (last == 0 || previous < id);
            previous = id;
            last = next;
            next = record.next();
        }
        let count = self.count;
        (next == 0).then_some(Tour { count, last, up })
    }
}

impl<const WIDTH: u32> Record<'_, WIDTH> {
    /// It may stand in the chain, as far as one record shows it.
    fn suits(&self, chain: u32) -> bool
        ensures { result ≡ suits WIDTH (word_at self.now.records.bytes.now) chain self.now.index }
    {
        chain == FREE || self.id() % 16 == u64::from(chain) && self.is_state()
    }
}
