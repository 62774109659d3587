// The frame call over a state that the host keeps.
ghost use Rattle.numbers.specs.Table.{table_at, table_of};
ghost use Rattle.area.specs.Outcome.{lent_outcome_in};
ghost use Rattle.area.specs.Lists.{LentSays};

use crate::call::{frame_by, frame_call};
use crate::outcome::Outputs;
use crate::state::State;
use refusals::Refusal;

// One frame changed into a state that the host lends, by table T. A refusal leaves it as it was.
// Stays: beside frame_lent_by, and frame_call stored back. It is public and goes on promising T, and a caller with no table names none.
#[tactic(auto, unfolding(crate::specs::Outcome::refused_of))]
pub fn frame_lent(state: &mut State, bytes: &[u8]) -> Result<Outputs, Refusal>
    ensures { LentSays table_at state.old bytes.now (lent_outcome_in state.old result) state.new }
{
    let accepted = frame_call(*state, bytes)?;
    *state = accepted.state;
    Ok(accepted.outputs)
}

// The same by a table that is lent; bytes of any length other than a table's stand for T.
// Stays: beside frame_by. The document has both forms of the call, and a list may hold either.
#[tactic(auto, unfolding(crate::specs::Outcome::refused_of))]
pub fn frame_lent_by(state: &mut State, bytes: &[u8], table: &[u8]) -> Result<Outputs, Refusal>
    ensures { LentSays (table_of table.now) state.old bytes.now (lent_outcome_in state.old result) state.new }
{
    let accepted = frame_by(*state, bytes, table)?;
    *state = accepted.state;
    Ok(accepted.outputs)
}
