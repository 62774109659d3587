// Frame calls on a state that is kept.
ghost use Rattle.std.specs.Prelude.{◌≡◌};
ghost use Rattle.numbers.specs.Table.{table_of};
ghost use Rattle.area.specs.Outcome.{answer_in};
ghost use Rattle.area.specs.Lists.{FrameSays};
ghost use Rattle.area.specs.Replay.{other_than};
ghost use Rattle.area.specs.State as Spec;
ghost use Rattle.area.specs.declared.replays.Form.TheVariants.{ByValue};

use area::{Accepted, Form, State, call_by, frame_call, state_after};
use refusals::Refusal;

/// The first frame is by value, the second lent, and so on by turns.
#[derive(Clone, Copy, Debug)]
pub struct Turns {
    pub state: State,
    /// Of the next frame.
    pub form: Form,
}

impl Default for Turns {
    fn default() -> Self
        ensures { result ≡ record { state = Spec.default; form = ByValue } }
    {
        Turns {
            state: State::default(),
            form: Form::ByValue,
        }
    }
}

impl Turns {
    /// By a table that is lent; no bytes stand for T. The state stays as it was where the frame is refused.
    pub fn frame(&mut self, bytes: &[u8], table: &[u8]) -> Result<Accepted, Refusal>
        ensures says { FrameSays (table_of table.now) self.old.state bytes.now (answer_in self.old.state result) }
        ensures kept { self.new.state ≡ (answer_in self.old.state result).state }
        ensures turned { self.new.form ≡ other_than self.old.form }
    {
        let answer = call(self.state, self.form, bytes, table);
        self.state = state_after(self.state, &answer);
        self.form = self.form.other();
        answer
    }
}

// A frame by T and by value is the frame call itself.
#[tactic(auto, using(crate::proofs::TableLaws::of_none))]
fn call(state: State, form: Form, bytes: &[u8], table: &[u8]) -> Result<Accepted, Refusal>
    ensures { FrameSays (table_of table.now) state bytes.now (answer_in state result) }
{
    if form == Form::ByValue && table.is_empty() {
        return frame_call(state, bytes);
    }
    call_by(state, form, bytes, table)
}
