// The state of an id, read out.
ghost use Rattle.std.specs.Prelude.{◌≡◌};
ghost use Rattle.refusals.specs.Refusal.{number_in};
ghost use Rattle.records.specs.Tidied.{TidiedHolds};
ghost use Rattle.drawer.specs.Calls.{load_on};

use crate::check::{Drawer, RECORD_WORDS};
use records::STATE;
use refusals::Refusal;

/// 13: no drawer. 14: the id is not there. A refusal leaves the state as it was.
#[tactic(auto, using(records::proofs::TidiedWrittenLaws::tidied_holds), unfolding(crate::specs::Calls::load_on))]
pub fn load(drawer: &[u8], id: u64, state: &mut [u8; STATE]) -> Result<(), Refusal>
    ensures answers { record { refusal = number_in result; state = state.new } ≡ load_on drawer.now id state.old }
    ensures stands { TidiedHolds }
{
    let place = Drawer::of(drawer)?.find(id).ok_or(Refusal::NoEntry)?;
    let words = records::tidied(drawer, RECORD_WORDS * place.record + 3);
    words::put(state, 0, &words);
    Ok(())
}
