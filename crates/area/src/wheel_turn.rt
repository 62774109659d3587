// The wheel: who hears it, and what a turn of it does to one axis.
ghost use Rattle.std.specs.Prelude.{◌≡◌};
ghost use Rattle.numbers.specs.Axis.{index_of};
ghost use Rattle.area.specs.Frame.{frame_of};
ghost use Rattle.area.specs.WheelTurn as Spec;

use crate::axis_physics::physics_of;
use crate::begin::dt_of;
use crate::extent::AxisExtent;
use crate::frame::FrameView;
use crate::geometry::rect_contains_pointer;
use crate::prepared::{AxisBefore, AxisMotion, AxisSpace};
use axis::{AxisPhysics, WheelScroll};
use numbers::{Axis, Rect};

// Whether the area hears the wheel, and whether both of its deltas move the only direction that is enabled.
// Stays: two flags. They are two facts of the Rust, and the second stands also where nothing is heard.
#[derive(Clone, Copy, Debug, PartialEq)]
pub struct WheelHeard {
    pub heard: bool,
    pub always_scroll_enabled_direction: bool,
}

// One axis after the wheel. A consumed delta is not left to an enclosing area.
#[derive(Clone, Copy, Debug, PartialEq)]
pub struct Turned {
    pub motion: AxisMotion,
    pub rubber_banding: bool,
    pub bounced_this_momentum: bool,
    pub consumed: bool,
}

// The pointer is over the outer rectangle, or drags the background.
#[tactic(auto, unfolding(crate::specs::WheelTurn::heard_of))]
pub fn hear_wheel(frame: &FrameView, outer_rect: Rect, is_dragging_background: bool) -> WheelHeard
    ensures { result ≡ Spec.heard_of frame.now outer_rect is_dragging_background }
{
    // Stays: x and y by name, here and in wheel_scroll. They are the Rust's one test and one sum, and a fold over the axes is no plainer.
    let only = frame.direction_enabled(Axis::X) != frame.direction_enabled(Axis::Y);
    let over = rect_contains_pointer(frame, outer_rect);
    WheelHeard {
        heard: frame.mouse_wheel() & frame.enabled() & (over | is_dragging_background),
        always_scroll_enabled_direction: frame.always_scroll_the_only_direction() & only,
    }
}

// Turns one axis, if it is enabled and the wheel is heard; rubber_banding is begin's.
#[tactic(auto, unfolding(crate::specs::WheelTurn::turned_of, crate::specs::WheelTurn::wheel_physics_of))]
pub fn turn_axis(
    frame: &FrameView,
    d: Axis,
    before: AxisBefore,
    space: AxisSpace,
    extent: AxisExtent,
    wheel: WheelHeard,
    motion: AxisMotion,
    rubber_banding: bool,
) -> Turned
    ensures answers { result ≡ Spec.turned_of frame.now (index_of d) before space extent wheel motion rubber_banding }
    ensures holds { (bytes : _) → frame.now ≡ frame_of bytes → Spec.TurnHolds bytes (index_of d) before space extent wheel motion result }
{
    let enabled = frame.direction_enabled(d);
    if wheel.heard & enabled {
        // We know this frame's bounds now; extent and rubber band stay those of `begin`.
        let physics = physics_of(
            frame.kinetic(),
            enabled,
            before.content_is_too_large,
            extent.max_offset,
            space.inner_size,
        );
        let scroll = wheel_scroll(frame, d, wheel.always_scroll_enabled_direction);
        return turn_by(
            physics,
            scroll,
            motion,
            rubber_banding,
            before.bounced_this_momentum,
        );
    }
    Turned {
        motion,
        rubber_banding,
        bounced_this_momentum: before.bounced_this_momentum,
        consumed: false,
    }
}

// A wheel's delta points against the offset. With one direction only, either way of turning moves it, without shift.
#[tactic(auto, unfolding(crate::specs::WheelTurn::wheel_scroll_of, crate::specs::Geometry::pick_of))]
fn wheel_scroll(frame: &FrameView, d: Axis, always_scroll_enabled_direction: bool) -> WheelScroll
    ensures { result ≡ Spec.wheel_scroll_of frame.now (index_of d) always_scroll_enabled_direction }
{
    let both = frame.smooth_scroll_delta(Axis::X) + frame.smooth_scroll_delta(Axis::Y);
    let own = frame.smooth_scroll_delta(d);
    let delta = if always_scroll_enabled_direction {
        both
    } else {
        own
    };
    WheelScroll {
        delta: -(delta * frame.wheel_scroll_multiplier(d)),
        source: frame.source(),
        can_chain_to_parent: frame.scrolling_ancestor(),
        dt: dt_of(frame.stable_dt()),
    }
}

// A consumed turn ends sticking and a target under way. One that is not, as a delta of 0, may still clear the bounce flag.
#[tactic(auto, unfolding(crate::specs::WheelTurn::turned_by))]
fn turn_by(
    physics: AxisPhysics,
    scroll: WheelScroll,
    motion: AxisMotion,
    rubber_banding: bool,
    bounced_this_momentum: bool,
) -> Turned
    ensures { result ≡ Spec.turned_by physics scroll motion rubber_banding bounced_this_momentum }
{
    let turn = physics.wheel(motion.offset, motion.vel, scroll, bounced_this_momentum);
    if turn.consumed {
        return Turned {
            motion: AxisMotion {
                offset: turn.offset,
                vel: turn.vel,
                offset_target: None,
                scroll_stuck_to_end: false,
            },
            rubber_banding: physics.is_rubber_banding(turn.offset),
            bounced_this_momentum: turn.bounced_this_momentum,
            consumed: true,
        };
    }
    Turned {
        motion: AxisMotion {
            offset: turn.offset,
            vel: turn.vel,
            ..motion
        },
        rubber_banding,
        bounced_this_momentum: turn.bounced_this_momentum,
        consumed: false,
    }
}
