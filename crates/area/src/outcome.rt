// What an accepted frame puts out.
ghost use Rattle.std.specs.Prelude.{◌≡◌};
ghost use Rattle.area.specs.Outcome as Spec;

use crate::state::State;
use numbers::{Finite, Rect};
use refusals::Refusal;

// Besides the state.
// Stays: arrays by axis, as in State.
#[derive(Clone, Copy, Debug, PartialEq)]
pub struct Outputs {
    pub content_size: [f32; 2],
    pub inner_rect: Rect,
    pub viewport: Rect,
    // Of the second calculation; none where the bar's factor is 0.
    pub handles: [Option<Rect>; 2],
    pub wheel_delta_left: [f32; 2],
    pub scroll_delta_left: [f32; 2],
    pub repaint: bool,
}

#[derive(Clone, Copy, Debug, PartialEq)]
pub struct Accepted {
    pub state: State,
    pub outputs: Outputs,
}

// The state after a frame: that of an accepted one, else the state that was given.
#[tactic(auto, unfolding(crate::specs::Outcome::refused_of))]
pub fn state_after(given: State, answer: &Result<Accepted, Refusal>) -> State
    ensures { result ≡ (Spec.answer_in given answer.now).state }
{
    match answer {
        Ok(accepted) => accepted.state,
        Err(_) => given,
    }
}

// Check 8: every number put out, the state's too.
impl Finite for Accepted {
    ghost finite = { λ accepted. Spec.is_answer_finite (Spec.accepted_in accepted) };

    #[tactic(auto, unfolding(crate::specs::Outcome::is_answer_finite))]
    fn all_finite(self) -> bool {
        self.state.all_finite() & self.outputs.all_finite()
    }
}

impl Finite for Outputs {
    ghost finite = { λ outputs. Spec.is_outcome_finite (Spec.outcome_in outputs) };

    #[tactic(auto, unfolding(crate::specs::Outcome::is_outcome_finite, crate::specs::Checks::is_pair_finite, crate::specs::Checks::is_rect_finite))]
    fn all_finite(self) -> bool {
        self.content_size.all_finite()
            & self.inner_rect.all_finite()
            & self.viewport.all_finite()
            & self.handles.all_finite()
            & self.wheel_delta_left.all_finite()
            & self.scroll_delta_left.all_finite()
    }
}
