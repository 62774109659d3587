// A state put in under its id.
ghost use Rattle.std.specs.Prelude.{◌≡◌, true, false, ◌<◌, get_or, OnOk};
ghost use Rattle.refusals.specs.Refusal.{number_in};
ghost use Rattle.records.specs.Record.{is_damaged};
ghost use Rattle.drawer.specs.Drawer.{is_drawer};
ghost use Rattle.drawer.specs.Tours.{LiesIn};
ghost use Rattle.drawer.specs.Calls.{width, save_on, put_on, new_in};

use crate::check::{Drawer, RECORD_WORDS};
use crate::find::Place;
use crate::layout::FREE;
use records::STATE;
use refusals::Refusal;
use words::{long_words, word};

/// 6: a flag of the state is neither 0 nor 1. 13: no drawer. 15: a new id, and no free record.
#[tactic(auto, unfolding(crate::specs::Calls::save_on))]
pub fn save(drawer: &mut [u8], id: u64, state: &[u8; STATE]) -> Result<(), Refusal>
    ensures answers { record { refusal = number_in result; drawer = drawer.new } ≡ save_on drawer.old id state.now }
    ensures kept { OnOk result (is_drawer width drawer.new ≡ true) }
{
    if records::is_damaged(state, 0) {
        return Err(Refusal::State);
    }
    save_words(drawer, id, &records::tidied(state, 0))
}

/// A state's record with absent options as zeros.
#[tactic(auto, unfolding(crate::specs::Calls::put_on))]
fn save_words(drawer: &mut [u8], id: u64, words: &[u32; 39]) -> Result<(), Refusal>
    requires { is_damaged (λ i. get_or words.now i 0) 0 ≡ false }
    ensures answers { record { refusal = number_in result; drawer = drawer.new } ≡ put_on drawer.old id words.now }
    ensures kept { OnOk result (is_drawer width drawer.new ≡ true) }
{
    let held = Drawer::of(drawer)?;
    if let Some(place) = held.find(id) {
        words::put(drawer, (RECORD_WORDS * place.record + 3) as usize, words);
        return Ok(());
    }
    let place = held.vacancy(id).ok_or(Refusal::DrawerFull)?;
    put_new(drawer, id, words, place);
    Ok(())
}

/// The first free record goes in at the link.
#[tactic(auto, unfolding(crate::specs::Calls::new_in))]
fn put_new(drawer: &mut [u8], id: u64, words: &[u32; 39], place: Place)
    requires { LiesIn width place.record place.link drawer.old }
    ensures { drawer.new ≡ new_in drawer.old id words.now place.record place.link }
{
    let Place { record, link } = place;
    let first = RECORD_WORDS * record;
    let after = word(drawer, link);
    let free = word(drawer, first);
    let [low, high] = long_words(id);
    words::put(drawer, FREE as usize, &[free]);
    words::put(drawer, first as usize, &[after, low, high]);
    words::put(drawer, (first + 3) as usize, words);
    words::put(drawer, link as usize, &[record]);
}
