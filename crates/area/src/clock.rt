// The host's clock, which may not run backwards, and the call for a clock that was set back.
ghost use Rattle.std.specs.Prelude.{◌≡◌, ◌+◌, ◌*◌, ◌≤◌, cond, length};
ghost use Rattle.std.specs.Float.Ieee.{lt};
ghost use Rattle.words.specs.Words.{put_at};
ghost use Rattle.refusals.specs.Refusal.{number_in};
ghost use Rattle.area.specs.Frame.{time_words};
ghost use Rattle.area.specs.Clock as Spec;
ghost use Rattle.area.specs.Lists.{ResetSays};

use crate::frame::FrameView;
use crate::state::State;
use numbers::Ieee;
use refusals::{Refusal, refuse};

// Check 12.
pub fn check_clock(frame: &FrameView, state: State) -> Result<(), Refusal>
    ensures { number_in result ≡ Spec.refusal_at frame.now.host.time state }
{
    refuse(frame.time() < state.remembered_time, Refusal::Clock)
}

// Clears the remembered time and nothing else, so that 12 refuses no frame until one is accepted.
#[tactic(auto, unfolding(crate::specs::Clock::reset_of))]
pub fn reset(state: State) -> State
    ensures { ResetSays state result }
{
    State {
        remembered_time: 0.0,
        ..state
    }
}

// The same on a state that the host lends.
// Stays: beside reset. The document has both forms of the call.
pub fn reset_lent(state: &mut State)
    ensures { ResetSays state.old state.new }
{
    *state = reset(*state);
}

// A time's two words, the low one first, from word `at` on, counted from 0.
pub fn put_time(bytes: &mut [u8], at: usize, t: f64)
    requires { 4 * at + 8 ≤ length bytes.old }
    ensures { bytes.new ≡ put_at at (time_words t) bytes.old }
{
    words::put(bytes, at, &words::long_words(t.bits()));
}
