// One turn of the bar loop, after the sticking.
ghost use Rattle.std.specs.Prelude.{◌≡◌};
ghost use Rattle.numbers.specs.Axis.{index_of, other_of};
ghost use Rattle.area.specs.Bar as Spec;

use crate::fields::BarResponse;
use crate::frame::FrameView;
use crate::handle::{BarSpace, Track, handle_rect_of, show_factor_of, track_of};
use crate::prepared::AxisMotion;
use crate::press::{Grip, press_axis};
use crate::state::clamped;
use numbers::{Axis, Rect};

// One axis after its bar.
#[derive(Clone, Copy, Debug, PartialEq)]
pub struct Barred {
    pub motion: AxisMotion,
    pub press: Option<f32>,
    pub scroll_bar_interaction: bool,
    pub handle: Option<Rect>,
    // Check 7 applies.
    // Stays: a flag, as in Pressed.
    pub is_press_blocked: bool,
}

// Brings the offset back into range and stops the motion there, unless a rubber band holds it outside.
#[tactic(auto, unfolding(crate::specs::Bar::bound_motion_of, crate::specs::Geometry::pick_of))]
fn bound_motion(m: AxisMotion, rubber_banding: bool, max_offset: f32) -> AxisMotion
    ensures { result ≡ Spec.bound_motion_of m rubber_banding max_offset }
{
    if rubber_banding {
        return m;
    }
    let offset = clamped(m.offset, max_offset);
    AxisMotion {
        offset,
        vel: if offset != m.offset { 0.0 } else { m.vel },
        ..m
    }
}

// A bar in sight. The handle handed out is the one after the press and the clamp, so it does not lag by a frame.
#[tactic(auto, unfolding(crate::specs::Bar::shown_bar))]
fn show_bar(
    m: AxisMotion,
    t: Track,
    rubber_banding: bool,
    stored: Option<f32>,
    response: BarResponse,
    d: Axis,
) -> Barred
    ensures { result ≡ Spec.shown_bar m t rubber_banding stored response (index_of d) }
{
    let grip = Grip {
        track: t,
        handle: t.calculate_handle(m.offset),
        d,
    };
    let pressed = press_axis(m, grip, stored, response.press);
    let motion = bound_motion(pressed.motion, rubber_banding, t.max_offset);
    let rect = handle_rect_of(t.calculate_handle(motion.offset), t.cross, d);
    Barred {
        motion,
        press: pressed.press,
        scroll_bar_interaction: response.hovered | response.dragged,
        handle: Some(rect),
        is_press_blocked: pressed.is_press_blocked,
    }
}

// The bar of axis d.
#[tactic(auto, unfolding(crate::specs::Bar::bar_of, crate::specs::Bar::turn_bar))]
pub fn bar_axis(
    frame: &FrameView,
    d: Axis,
    space: BarSpace,
    show_scroll: bool,
    rubber_banding: bool,
    stored: Option<f32>,
    m: AxisMotion,
) -> Barred
    ensures { result ≡ Spec.bar_of frame.now (index_of d) (index_of (other_of d)) space show_scroll rubber_banding stored m }
{
    let show_factor = show_factor_of(show_scroll, frame.bar_factor(d), frame.opening_factor(d));
    // A bar with factor 0 moves nothing; a press stored on it stays stored.
    if show_factor == 0.0 {
        return Barred {
            motion: m,
            press: stored,
            scroll_bar_interaction: false,
            handle: None,
            is_press_blocked: false,
        };
    }
    let t = track_of(frame, d, space, show_factor);
    show_bar(m, t, rubber_banding, stored, frame.bar_response(d), d)
}
