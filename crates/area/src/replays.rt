// A list of calls in bytes, in either form of the frame call.
ghost use Rattle.std.specs.Prelude.{◌≡◌};
ghost use Rattle.numbers.specs.Table.{table_of};
ghost use Rattle.area.specs.Outcome.{answer_in};
ghost use Rattle.area.specs.Lists.{FrameSays};
ghost use Rattle.area.specs.Replay.{Replayed, other_than, form_of};

use crate::call::frame_by;
use crate::frame::FRAME;
use crate::lent::frame_lent_by;
use crate::outcome::{Accepted, state_after};
use crate::state::State;
use refusals::{Refusal, number};

// How a frame call is handed the state.
#[derive(Clone, Copy, Debug, PartialEq, Eq)]
pub enum Form {
    ByValue,
    Lent,
}

// 0 is by value, and any other lent.
impl From<u8> for Form {
    ghost from_gives = { λ by form. form ≡ form_of by };

    fn from(by: u8) -> Self {
        match by {
            0 => Form::ByValue,
            _ => Form::Lent,
        }
    }
}

impl Form {
    // The other one, where the forms take turns.
    pub fn other(self) -> Self
        ensures { result ≡ other_than self }
    {
        match self {
            Form::ByValue => Form::Lent,
            Form::Lent => Form::ByValue,
        }
    }
}

// The lent call on a state by value: it is lent for the call and handed back.
#[tactic(auto, using(crate::proofs::CallLaws::refused_by_outcome, refusals::proofs::Refused::not_0))]
fn via_lent(state: State, bytes: &[u8], table: &[u8]) -> Result<Accepted, Refusal>
    ensures { FrameSays (table_of table.now) state bytes.now (answer_in state result) }
{
    let mut lent = state;
    let outputs = frame_lent_by(&mut lent, bytes, table)?;
    Ok(Accepted {
        state: lent,
        outputs,
    })
}

// One frame by a table, in the form given, or by its number: by value where that is 0 and lent where it is any other.
pub fn call_by<F: Into<Form>>(
    state: State,
    form: F,
    bytes: &[u8],
    table: &[u8],
) -> Result<Accepted, Refusal>
    ensures { FrameSays (table_of table.now) state bytes.now (answer_in state result) }
{
    match form.into() {
        Form::ByValue => frame_by(state, bytes, table),
        Form::Lent => via_lent(state, bytes, table),
    }
}

// A list of calls in bytes: for each call a flag, 0 for a call by value and any other for a lent one, and the frame; the
// last frame may be shorter.
#[derive(Drop)]
struct Calls<'a>(&'a [u8]);

impl<'a> Iterator for Calls<'a> {
    ghost use Rattle.std.specs.Iterator.{YieldsFirstBy, item_count};
    ghost use Rattle.area.specs.Replay.{call_in, calls_of};

    type Item = (Form, &'a [u8]);

    ghost next_gives = { YieldsFirstBy (λ call. call_in call.0 call.1.now) (λ s. calls_of s.0.now) };

    ghost remaining = { item_count (λ s. calls_of s.0.now) };

    fn next(&mut self) -> Option<(Form, &'a [u8])> {
        let (by, after) = self.0.split_first()?;
        let (frame, rest) = after.split_at(FRAME.min(after.len()));
        self.0 = rest;
        Some((Form::from(*by), frame))
    }
}

// Stays: refusals as numbers in `refusals`. The claim lists what the calls tell, 0 for an accepted one.
// The calls by table T, one after another from a default state, and the state after them. The refusal of each call, or 0,
// is written as far as there is room.
pub fn replay(calls: &[u8], refusals: &mut [u32]) -> State
    ensures { Replayed calls.now result refusals.old refusals.new }
{
    let mut state = State::default();
    for (i, (form, frame)) in Calls(calls).enumerate() {
        let answer = call_by(state, form, frame, &[]);
        // Stays: of a slice after `get_mut` a proof knows the length and no element.
        if i < refusals.len() {
            refusals[i] = number(&answer);
        }
        state = state_after(state, &answer);
    }
    state
}
