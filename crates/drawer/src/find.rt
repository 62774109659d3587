// Where an id stands in its chain, and where a new one goes.
ghost use Rattle.std.specs.Prelude.{◌≡◌, ℕ, Bool, ◌+◌, ◌*◌, ◌%◌, ◌<◌, ◌≤◌, length, eqb, IfSome, IfNone};
ghost use Rattle.words.specs.Words.{word_at};
ghost use Rattle.drawer.specs.Drawer.{id_in};
ghost use Rattle.drawer.specs.Search.{seek, link_of, place_of, records, record_of};
ghost use Rattle.drawer.specs.Tours.{LiesIn};
ghost use Rattle.drawer.specs.Calls as Spec;

use crate::check::Drawer;
use crate::layout::{FREE, Records};

/// A record, and the link that names it or is to name it.
// Stays: LiesIn is a clause of those who find and write a place. A ghost field would name the bytes, which each write borrows anew.
#[derive(Clone, Copy)]
pub struct Place {
    pub record: u32,
    pub link: u32,
}

impl Drawer<'_> {
    /// Where the id stands, if it does.
    pub fn find(&self, id: u64) -> Option<Place>
        ensures found { let s = self.now.records.bytes.now in IfSome result (λ place.
            (place.record ≡ record_of Spec.width s id)
            × (place.link ≡ link_of Spec.width (word_at s) (records Spec.width s) id)
            × (0 < place.record)
            × LiesIn Spec.width place.record place.link s) }
        ensures absent { IfNone result (record_of Spec.width self.now.records.bytes.now id ≡ 0) }
    {
        let link = self.records.seek(id, |other| other == id);
        let record = self.records.word(link);
        if record == 0 {
            return None;
        }
        Some(Place { record, link })
    }

    /// Where a new id goes, if a record is free: before the first larger id, else to the end.
    pub fn vacancy(&self, id: u64) -> Option<Place>
        ensures found { let s = self.now.records.bytes.now in IfSome result (λ place.
            (place.record ≡ word_at s 16)
            × (place.link ≡ place_of Spec.width (word_at s) (records Spec.width s) id)
            × (0 < place.record)
            × LiesIn Spec.width place.record place.link s) }
        ensures full { IfNone result (word_at self.now.records.bytes.now 16 ≡ 0) }
    {
        let record = self.records.word(FREE);
        if record == 0 {
            return None;
        }
        let link = self.records.seek(id, |other| id < other);
        Some(Place { record, link })
    }
}

impl<const WIDTH: u32> Records<'_, WIDTH> {
    /// The link in the id's chain that names the first record with an id at which to stop, or that ends the chain.
    pub fn seek<F: Fn(u64) -> bool>(&self, id: u64, stop: F) -> u32
        requires { F.IsAlwaysCallable stop }
        ensures stopped { let w = word_at self.now.bytes.now in let n = self.now.count in
            (test : ℕ → Bool) → ((y : ℕ) (b : Bool) → F.post stop y b → b ≡ test y)
            → result ≡ seek WIDTH (λ r. test (id_in WIDTH w r)) w n n (id % 16) }
        ensures room { 4 * result + 4 ≤ length self.now.bytes.now }
    {
        let mut link = (id % 16) as u32;
        for _ in 0..self.count {
            let Some(record) = self.record(self.word(link)) else {
                return link;
            };
            if stop(record.id()) {
                return link;
            }
            link = record.link();
        }
        link
    }
}
