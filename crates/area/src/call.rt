// The frame call.
ghost use Rattle.std.specs.Prelude.{◌≡◌};
ghost use Rattle.numbers.specs.Table.{table_at, table_of};
ghost use Rattle.area.specs.Call as Spec;
ghost use Rattle.area.specs.Outcome.{answer_in};
ghost use Rattle.area.specs.Lists.{FrameSays};

use crate::begin::begin;
use crate::checks::check_before_7;
use crate::end::{end, is_press_blocked};
use crate::frame::FrameView;
use crate::outcome::Accepted;
use crate::put_out::accepted_of;
use crate::state::State;
use numbers::Finite;
use refusals::Refusal;

// One frame on a state, by table T; otherwise as frame_by.
// Stays: beside frame_by. It is public and goes on promising T, and a caller with no table names none.
#[tactic(auto, unfolding(numbers::specs::Table::table_of))]
pub fn frame_call(state: State, bytes: &[u8]) -> Result<Accepted, Refusal>
    ensures { FrameSays table_at state bytes.now (answer_in state result) }
{
    frame_by(state, bytes, &[])
}

// One frame on a state, by a table that is lent: the checks, then both halves. A refusal leaves the caller the state that it gave.
// Bytes of any length other than a table's stand for T.
// Stays: a table as bytes. An Option of 8,200 would turn back bytes that are accepted.
#[tactic(auto, using(refusals::proofs::Refused::not_0), unfolding(crate::specs::Call::call_under))]
pub fn frame_by(state: State, bytes: &[u8], table: &[u8]) -> Result<Accepted, Refusal>
    ensures { FrameSays (table_of table.now) state bytes.now (answer_in state result) }
{
    let frame = check_before_7(bytes, state)?;
    run(state, &frame, table)
}

// `begin`, then `end`; 7 goes before 8.
// Stays: check 8 beside axis's put_out. An answer here goes with the state, and there with what was given.
#[tactic(auto, unfolding(crate::specs::Call::run_of))]
fn run(state: State, frame: &FrameView, table: &[u8]) -> Result<Accepted, Refusal>
    ensures { answer_in state result ≡ Spec.run_of (table_of table.now) state frame.now }
{
    let prepared = begin(frame, state, table);
    let ended = end(frame, state, prepared);
    if is_press_blocked(ended) {
        return Err(Refusal::PressBlocked);
    }
    let accepted = accepted_of(frame, state, prepared, ended);
    if accepted.all_finite() {
        return Ok(accepted);
    }
    Err(Refusal::Outcome)
}
