// What 13 refuses, found in one walk over every chain, and in pairs where ids do not ascend, with no memory but the last record of each.
ghost use Rattle.std.specs.Prelude.{◌≡◌, true, false, ◌*◌, ◌≤◌, ◌<◌, length, take, IfOk, IfErr, IfSome, IfNone};
ghost use Rattle.words.specs.Words.{word_at};
ghost use Rattle.drawer.specs.Drawer.{is_filled, is_drawer};
ghost use Rattle.drawer.specs.Tours.{is_met, is_single};
ghost use Rattle.drawer.specs.Calls as Spec;

use crate::layout::{FREE, LENGTH, Records};
use refusals::Refusal;

/// Words in a record: its next index, its id and a state's record.
pub const RECORD_WORDS: u32 = 42;

/// A buffer that is a drawer, read. Calls write it by words: between two of their writes it is none.
#[derive(Clone, Copy)]
pub struct Drawer<'a> {
    pub records: Records<'a, RECORD_WORDS>,
    ghost checked: { is_drawer Spec.width records.bytes.now ≡ true },
}

impl<'a> Drawer<'a> {
    /// 13: the bytes are no drawer.
    pub fn of(bytes: &'a [u8]) -> Result<Self, Refusal>
        ensures drawer { IfOk result (λ drawer. (drawer.records.bytes.now ≡ bytes.now) × (is_drawer Spec.width bytes.now ≡ true)) }
        ensures refused { IfErr result (λ refusal. (refusal ≡ Refusal.NoDrawer) × (is_drawer Spec.width bytes.now ≡ false)) }
    {
        let records = Records::of(bytes)
            .filter(|records| records.is_drawer())
            .ok_or(Refusal::NoDrawer)?;
        Ok(Drawer { records })
    }
}

impl<const WIDTH: u32> Records<'_, WIDTH> {
    /// Record 0 names the length, and the chains are as 13 asks.
    #[tactic(auto, using(crate::proofs::SizeLaws::sized_is_whole), unfolding(crate::specs::Drawer::is_drawer))]
    fn is_drawer(&self) -> bool
        ensures { result ≡ is_drawer WIDTH self.now.bytes.now }
    {
        self.word(LENGTH) == 4 * WIDTH && self.is_filled()
    }

    fn is_filled(&self) -> bool
        ensures { result ≡ is_filled WIDTH (word_at self.now.bytes.now) self.now.count }
    {
        // Stays: an array with the chain's number for its length. A list that grows to 17 is that where there is no heap.
        let mut lasts = [0; 17];
        let mut total = 0;
        for chain in 0..17 {
            let Some(tour) = self.tour(chain) else {
                return false;
            };
            if is_met(&lasts[..chain as usize], tour.last) {
                return false;
            }
            if !self.is_single(chain, tour.up) {
                return false;
            }
            lasts[chain as usize] = tour.last;
            total += tour.count;
        }
        total + 1 == self.count
    }

    /// An ascending chain cannot hold an id twice: only one that does not ascend is compared in pairs.
    #[tactic(auto, unfolding(crate::specs::Tours::is_single))]
    fn is_single(&self, chain: u32, up: bool) -> bool
        ensures { result ≡ is_single WIDTH (word_at self.now.bytes.now) self.now.count chain up }
    {
        chain == FREE || up || !self.is_twice(chain)
    }
}

/// Two chains that end and meet share their last record.
// Stays: 0 for an empty chain, which meets none. An Option would be turned into the definition's 0 in the clause.
#[tactic(auto, unfolding(crate::specs::Tours::is_met))]
fn is_met(lasts: &[u32], last: u32) -> bool
    ensures { result ≡ is_met lasts.now last }
{
    last != 0 && lasts.contains(&last)
}
