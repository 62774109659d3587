// Checks 1 to 5 on a frame's bytes, whether or not the steps read them, check 6 on a state, and all that goes before 7.
ghost use Rattle.std.specs.Prelude.{◌≡◌, IfOk};
ghost use Rattle.refusals.specs.Refusal.{number_in};
ghost use Rattle.numbers.specs.Finite.{option_finite};
ghost use Rattle.area.specs.Frame.{frame_of};
ghost use Rattle.area.specs.Checks as Spec;

use crate::clock::check_clock;
use crate::frame::{FRAME, FrameView};
use crate::state::{ScrollingToTarget, State};
use crate::sweep::sweep_words;
use numbers::Finite;
use refusals::{Refusal, refuse};

// The frame, unless one of 1 to 6 and 12 applies.
#[tactic(auto, using(refusals::proofs::Refused::not_0), unfolding(crate::specs::Checks::refusal_before7, crate::specs::Clock::clock_refusal, crate::specs::Frame::frame_of, crate::specs::Frame::host_of))]
pub fn check_before_7<'a>(bytes: &'a [u8], state: State) -> Result<FrameView<'a>, Refusal>
    ensures refuses { number_in result ≡ Spec.refusal_before7 bytes.now state }
    ensures reads { IfOk result (λ frame. frame ≡ frame_of bytes.now) }
{
    let frame = FrameView::new(check(bytes, state)?);
    check_clock(&frame, state)?;
    Ok(frame)
}

// The frame's bytes, unless one of 1 to 6 applies.
// Stays: bytes and no FrameView, here and in check_frame and check_run. A settling run writes the next time into a copy of them.
#[tactic(auto, using(refusals::proofs::Refused::not_0), unfolding(crate::specs::Checks::refusal_of))]
pub fn check<'a>(bytes: &'a [u8], state: State) -> Result<&'a [u8; FRAME], Refusal>
    ensures refuses { number_in result ≡ Spec.refusal_of bytes.now state }
    ensures keeps { IfOk result (λ frame. frame.now ≡ bytes.now) }
{
    let frame = check_frame(bytes)?;
    check_state(state)?;
    Ok(frame)
}

// The frame's bytes, unless one of 1 to 5 applies: what the walk over all words keeps.
// Stays: the length is asked here and in the walk, which is public for bytes of any length.
#[tactic(auto, using(crate::proofs::CallLaws::wrong_length))]
pub fn check_frame<'a>(bytes: &'a [u8]) -> Result<&'a [u8; FRAME], Refusal>
    ensures refuses { number_in result ≡ Spec.frame_refusal bytes.now }
    ensures keeps { IfOk result (λ frame. frame.now ≡ bytes.now) }
{
    let Ok(frame) = <&[u8; FRAME]>::try_from(bytes) else {
        return Err(Refusal::FrameLength);
    };
    sweep_words(bytes, 104).kept?;
    Ok(frame)
}

// Check 6.
#[tactic(auto, unfolding(crate::specs::Checks::state_refusal))]
fn check_state(state: State) -> Result<(), Refusal>
    ensures { number_in result ≡ Spec.state_refusal state }
{
    refuse(!state.all_finite(), Refusal::State)
}

impl Finite for ScrollingToTarget {
    ghost finite = { Spec.is_span_finite };

    fn all_finite(self) -> bool {
        self.start.all_finite() & self.end.all_finite() & self.target_offset.all_finite()
    }
}

// Every number that the state holds.
impl Finite for State {
    ghost finite = { Spec.is_state_finite };

    #[tactic(auto, unfolding(crate::specs::Checks::is_state_finite, crate::specs::Checks::is_pair_finite, crate::specs::Checks::are_targets_finite, crate::specs::Checks::are_presses_finite, crate::specs::Checks::is_rect_finite))]
    fn all_finite(self) -> bool {
        self.offset.all_finite()
            & self.max_offset.all_finite()
            & self.offset_target.all_finite()
            & self.vel.all_finite()
            & self.scroll_start_offset_from_top_left.all_finite()
            & self.interact_rect.all_finite()
            & self.remembered_time.all_finite()
    }
}
