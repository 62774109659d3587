// An id taken out.
ghost use Rattle.std.specs.Prelude.{◌≡◌, true, OnOk};
ghost use Rattle.refusals.specs.Refusal.{number_in};
ghost use Rattle.drawer.specs.Drawer.{is_drawer};
ghost use Rattle.drawer.specs.Tours.{LiesIn};
ghost use Rattle.drawer.specs.Calls.{width, forget_on, gone_from};

use crate::check::{Drawer, RECORD_WORDS};
use crate::find::Place;
use crate::laying::put_free;
use crate::layout::FREE;
use refusals::Refusal;
use words::word;

/// 13: no drawer. 14: the id is not there.
#[tactic(auto, unfolding(crate::specs::Calls::forget_on))]
pub fn forget(drawer: &mut [u8], id: u64) -> Result<(), Refusal>
    ensures answers { record { refusal = number_in result; drawer = drawer.new } ≡ forget_on drawer.old id }
    ensures kept { OnOk result (is_drawer width drawer.new ≡ true) }
{
    let place = Drawer::of(drawer)?.find(id).ok_or(Refusal::NoEntry)?;
    free_record(drawer, place);
    Ok(())
}

/// The record goes to the head of the free chain.
#[tactic(auto, unfolding(crate::specs::Calls::gone_from))]
fn free_record(drawer: &mut [u8], place: Place)
    requires { LiesIn width place.record place.link drawer.old }
    ensures { drawer.new ≡ gone_from drawer.old place.record place.link }
{
    let Place { record, link } = place;
    let after = word(drawer, RECORD_WORDS * record);
    let free = word(drawer, FREE);
    words::put(drawer, link as usize, &[after]);
    put_free(drawer, record, free);
    words::put(drawer, FREE as usize, &[record]);
}
