// What an accepted frame puts out, put together from its two halves.
ghost use Rattle.std.specs.Prelude.{◌≡◌};
ghost use Rattle.numbers.specs.F32.{zero};
ghost use Rattle.area.specs.Geometry.{pick_of};
ghost use Rattle.area.specs.Outcome.{accepted_in};
ghost use Rattle.area.specs.PutOut as Spec;

use crate::begin::viewport_of;
use crate::end::{Ended, shrunk_rect_of};
use crate::frame::FrameView;
use crate::outcome::{Accepted, Outputs};
use crate::prepared::Prepared;
use crate::space::inner_rect;
use crate::state::State;
use numbers::Axis;

#[tactic(auto, unfolding(crate::specs::PutOut::answer_of, crate::specs::PutOut::outcome_of, crate::specs::Begin::inner_rect_of))]
pub fn accepted_of(frame: &FrameView, state: State, prepared: Prepared, ended: Ended) -> Accepted
    ensures { accepted_in result ≡ Spec.answer_of frame.now state prepared ended }
{
    Accepted {
        state: next_state(frame, ended),
        outputs: Outputs {
            content_size: frame.content_size(),
            inner_rect: inner_rect(prepared.x_space, prepared.y_space),
            viewport: viewport_of(frame, state, prepared),
            handles: [ended.x.handle, ended.y.handle],
            wheel_delta_left: wheel_delta_left(frame, ended),
            scroll_delta_left: scroll_delta_left(frame),
            repaint: wants_repaint(state, prepared, ended),
        },
    }
}

// What the next frame begins from.
#[tactic(auto, unfolding(crate::specs::PutOut::next_state))]
fn next_state(frame: &FrameView, ended: Ended) -> State
    ensures { result ≡ Spec.next_state frame.now ended }
{
    State {
        offset: [ended.x.offset, ended.y.offset],
        max_offset: [ended.x_extent.max_offset, ended.y_extent.max_offset],
        offset_target: [ended.x.offset_target, ended.y.offset_target],
        show_scroll: [ended.x.show_scroll, ended.y.show_scroll],
        content_is_too_large: [
            ended.x_extent.content_is_too_large,
            ended.y_extent.content_is_too_large,
        ],
        scroll_bar_interaction: [
            ended.x.scroll_bar_interaction,
            ended.y.scroll_bar_interaction,
        ],
        vel: [ended.x.vel, ended.y.vel],
        scroll_start_offset_from_top_left: [ended.x.press, ended.y.press],
        scroll_stuck_to_end: [ended.x.scroll_stuck_to_end, ended.y.scroll_stuck_to_end],
        interact_rect: Some(shrunk_rect_of(ended.x_extent, ended.y_extent)),
        bounced_this_momentum: [ended.x.bounced_this_momentum, ended.y.bounced_this_momentum],
        remembered_time: frame.time(),
    }
}

// A delta that was consumed is cleared, so that no parent uses it; both where the only direction took both.
#[tactic(auto, unfolding(crate::specs::PutOut::wheel_delta_left))]
fn wheel_delta_left(frame: &FrameView, ended: Ended) -> [f32; 2]
    ensures { result ≡ Spec.wheel_delta_left frame.now ended }
{
    let both = ended.wheel.always_scroll_enabled_direction & (ended.x.consumed | ended.y.consumed);
    [
        unless(both | ended.x.consumed, frame.smooth_scroll_delta(Axis::X)),
        unless(both | ended.y.consumed, frame.smooth_scroll_delta(Axis::Y)),
    ]
}

// The scroll delta of an enabled axis is taken.
#[tactic(auto, unfolding(crate::specs::PutOut::scroll_delta_left))]
fn scroll_delta_left(frame: &FrameView) -> [f32; 2]
    ensures { result ≡ Spec.scroll_delta_left frame.now }
{
    [
        unless(
            frame.direction_enabled(Axis::X),
            frame.scroll_delta(Axis::X),
        ),
        unless(
            frame.direction_enabled(Axis::Y),
            frame.scroll_delta(Axis::Y),
        ),
    ]
}

// Nothing of what is taken is left.
#[tactic(auto, unfolding(crate::specs::Geometry::pick_of))]
fn unless(taken: bool, delta: f32) -> f32
    ensures { result ≡ pick_of taken zero delta }
{
    if taken { 0.0 } else { delta }
}

// A step that moves, a target under way, an adjustment, or bars that come or go.
#[tactic(auto, unfolding(crate::specs::PutOut::wants_repaint))]
fn wants_repaint(state: State, prepared: Prepared, ended: Ended) -> bool
    ensures { result ≡ Spec.wants_repaint state prepared ended }
{
    let [x_shown, y_shown] = state.show_scroll;
    prepared.x.repaint
        | prepared.y.repaint
        | ended.x.had_explicit_scroll_adjustment
        | ended.y.had_explicit_scroll_adjustment
        | (ended.x.show_scroll != x_shown)
        | (ended.y.show_scroll != y_shown)
}
