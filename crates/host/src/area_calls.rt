// The calls on a state.
ghost use Rattle.std.specs.Prelude.{◌≡◌};
ghost use Rattle.refusals.specs.Refusal.{number_of, number_in};
ghost use Rattle.numbers.specs.Table.{table_of};
ghost use Rattle.area.specs.Clock.{reset_of};
ghost use Rattle.records.specs.Record.{state_of};
ghost use Rattle.host.specs.Calls as Spec;
ghost use Rattle.host.specs.Lists.{AllRecordLists, ResetOnSays};

use area::{State, put_time};
use records::{is_damaged, put_outcome, put_pair, put_state, state_of};
use refusals::Refusal;

// A fresh state's record. Demand 3 holds of every list of frames, settling runs and resets on it, under tables or not.
pub fn strakobud_fresh(state: &mut [u8; 156])
    ensures starts { state.new ≡ Spec.fresh_bytes }
    ensures lists { AllRecordLists state.new }
{
    put_state(state, State::default());
}

// Never refused: a damaged record keeps its other words. Words are counted from 0 here.
#[tactic(auto, using(crate::proofs::ResetLaws::reset_stands), unfolding(crate::specs::Calls::reset_on))]
pub fn strakobud_reset(state: &mut [u8; 156])
    ensures clears { ResetOnSays state.old state.new }
    ensures stands { state_of state.new ≡ reset_of (state_of state.old) }
{
    put_time(state, 37, 0.0);
}

// By table T.
// Stays: C has a call without a table beside the one with it.
#[tactic(auto, unfolding(numbers::specs::Table::table_of))]
pub fn strakobud_frame(
    state: &mut [u8; 156],
    frame: &[u8],
    out: &mut [u8; 100],
) -> Result<(), Refusal>
    ensures { record { refusal = number_in result; state = state.new; out = out.new }
        ≡ Spec.frame_on state.old frame.now out.old }
{
    frame_under(state, frame, &[], out)
}

pub fn strakobud_frame_by(
    state: &mut [u8; 156],
    frame: &[u8],
    table: &[u8; 8200],
    out: &mut [u8; 100],
) -> Result<(), Refusal>
    ensures { record { refusal = number_in result; state = state.new; out = out.new }
        ≡ Spec.frame_under (table_of table.now) state.old frame.now out.old }
{
    frame_under(state, frame, table, out)
}

// By the table that the bytes stand for.
#[tactic(auto, using(refusals::proofs::Refused::not_0), unfolding(crate::specs::Calls::frame_under, area::specs::Outcome::refused_of))]
fn frame_under(
    state: &mut [u8; 156],
    frame: &[u8],
    table: &[u8],
    out: &mut [u8; 100],
) -> Result<(), Refusal>
    ensures { record { refusal = number_in result; state = state.new; out = out.new }
        ≡ Spec.frame_under (table_of table.now) state.old frame.now out.old }
{
    if is_damaged(state, 0) {
        return Err(damaged_refusal(frame));
    }
    let accepted = area::frame_by(state_of(state), frame, table)?;
    put_state(state, accepted.state);
    put_outcome(out, accepted.outputs);
    Ok(())
}

// The lowest of checks 1 to 5 that applies, or 6.
#[tactic(auto, using(refusals::proofs::Refused::not_0))]
pub fn damaged_refusal(frame: &[u8]) -> Refusal
    ensures { number_of result ≡ Spec.damaged_refusal frame.now }
{
    area::check_frame(frame).err().unwrap_or(Refusal::State)
}

#[tactic(auto, using(records::proofs::PartLaws::put_all), unfolding(crate::specs::Calls::offset_on))]
pub fn strakobud_offset(state: &[u8; 156], out: &mut [u8; 8]) -> Result<(), Refusal>
    ensures { record { refusal = number_in result; out = out.new } ≡ Spec.offset_on state.now out.old }
{
    if is_damaged(state, 0) {
        return Err(Refusal::State);
    }
    put_pair(out, 0, state_of(state).clamped_offset());
    Ok(())
}
