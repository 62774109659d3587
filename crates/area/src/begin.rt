// The first half of a frame, before the content is known: the space, and how far drag, step or a target moves each axis.
ghost use Rattle.std.specs.Prelude.{◌≡◌};
ghost use Rattle.numbers.specs.Axis.{index_of};
ghost use Rattle.numbers.specs.Table.{table_of};
ghost use Rattle.area.specs.Begin as Spec;

use crate::axis_physics::physics_of;
use crate::drive::{AxisDrive, AxisInput, before_of, open_motion};
use crate::fields::DragScroll;
use crate::follow::follow;
use crate::frame::FrameView;
use crate::geometry::rect_contains_pointer;
use crate::prepared::{AxisBefore, AxisBegun, AxisMotion, Prepared};
use crate::space::{inner_rect, space_of};
use crate::state::State;
use axis::WheelSource;
use numbers::{Axis, Pos2, Rect};

// Uses what the last frame left in the state: bounds, flags and the rectangle to take hold of.
#[tactic(auto, unfolding(crate::specs::Begin::begin_of, crate::specs::Begin::prepared_of))]
pub fn begin(frame: &FrameView, state: State, table: &[u8]) -> Prepared
    ensures { result ≡ Spec.begin_of (table_of table.now) frame.now state }
{
    let [x_shown, y_shown] = state.show_scroll;
    let x_space = space_of(frame, y_shown, Axis::X);
    let y_space = space_of(frame, x_shown, Axis::Y);
    let has_background_drag = has_background_drag(frame, state);
    let hold = hold_overscroll(frame, inner_rect(x_space, y_space));
    // Neither axis looks at how the other moves.
    let x = begin_axis(
        frame,
        Axis::X,
        before_of(state, Axis::X),
        open_motion(frame, state, Axis::X),
        x_space.inner_size,
        has_background_drag,
        hold,
        table,
    );
    let y = begin_axis(
        frame,
        Axis::Y,
        before_of(state, Axis::Y),
        open_motion(frame, state, Axis::Y),
        y_space.inner_size,
        has_background_drag,
        hold,
        table,
    );
    Prepared {
        x_space,
        y_space,
        has_background_drag,
        x,
        y,
    }
}

// What part of the content is seen, as the content is told: before this frame's drag or step.
#[tactic(auto, unfolding(crate::specs::Begin::viewport_of))]
pub fn viewport_of(frame: &FrameView, state: State, prepared: Prepared) -> Rect
    ensures { result ≡ Spec.viewport_of frame.now state prepared }
{
    let x = open_motion(frame, state, Axis::X);
    let y = open_motion(frame, state, Axis::Y);
    let min = Pos2 {
        x: 0.0 + x.offset,
        y: 0.0 + y.offset,
    };
    let inner_size = [prepared.x_space.inner_size, prepared.y_space.inner_size];
    Rect::from_min_size(min, inner_size)
}

// After a pause nothing leaps: a longer time since the last frame counts as 0.1.
#[tactic(auto, unfolding(crate::specs::Begin::dt_of))]
pub fn dt_of(stable_dt: f32) -> f32
    ensures { result ≡ Spec.dt_of stable_dt }
{
    numbers::min(stable_dt, 0.1)
}

// A target moves its axis after the hand or the step has.
#[tactic(auto, unfolding(crate::specs::Begin::begun_from, crate::specs::Begin::last_physics_of, crate::specs::Begin::input_of))]
fn begin_axis(
    frame: &FrameView,
    d: Axis,
    before: AxisBefore,
    motion: AxisMotion,
    inner_size: f32,
    background_drag: bool,
    hold: bool,
    table: &[u8],
) -> AxisBegun
    ensures { result ≡ Spec.begun_from (table_of table.now) frame.now (index_of d) before motion inner_size background_drag hold }
{
    let direction_enabled = frame.direction_enabled(d);
    let dt = dt_of(frame.stable_dt());
    // The bounds are those that the last frame left.
    let physics = physics_of(
        frame.kinetic(),
        direction_enabled,
        before.content_is_too_large,
        before.max_offset,
        inner_size,
    );
    // A hand on the background is no hand where there is no response to it.
    let input = AxisInput {
        direction_enabled,
        dragged: background_drag & frame.dragged(),
        drag_stopped: background_drag & frame.drag_stopped(),
        pointer_delta: frame.pointer_delta(d),
        pointer_velocity: frame.pointer_velocity(d),
        dt,
        hold_overscroll: hold,
    };
    let drive = AxisDrive {
        motion,
        physics,
        input,
    };
    follow(drive.drive(table), frame.time(), dt)
}

// Whether content can be dragged at all; in the first frame there is no rectangle yet to take hold of.
#[tactic(auto, unfolding(crate::specs::Begin::has_background_drag, crate::specs::Geometry::is_rect_stored))]
fn has_background_drag(frame: &FrameView, state: State) -> bool
    ensures { result ≡ Spec.has_background_drag frame.now state }
{
    let [x_too_large, y_too_large] = state.content_is_too_large;
    let is_any_too_large = x_too_large | y_too_large;
    drag_enabled(frame) & frame.enabled() & is_any_too_large & state.interact_rect.is_some()
}

// OnTouch asks whether there is a touch screen.
#[tactic(auto, unfolding(crate::specs::Begin::drag_enabled))]
fn drag_enabled(frame: &FrameView) -> bool
    ensures { result ≡ Spec.drag_enabled frame.now.settings.drag frame.now.host.touch }
{
    match frame.drag() {
        DragScroll::Never => false,
        DragScroll::OnTouch => frame.touch(),
        DragScroll::Always => true,
    }
}

// Content past the edge does not spring back while fingers rest on the trackpad, with the pointer over the area.
#[tactic(auto, unfolding(crate::specs::Begin::hold_overscroll))]
fn hold_overscroll(frame: &FrameView, inner_rect: Rect) -> bool
    ensures { result ≡ Spec.hold_overscroll frame.now.host inner_rect }
{
    fingers_on_trackpad(frame.source()) & rect_contains_pointer(frame, inner_rect)
}

// Momentum comes after the fingers.
#[tactic(auto, unfolding(crate::specs::Begin::fingers_on_trackpad))]
fn fingers_on_trackpad(source: Option<WheelSource>) -> bool
    ensures { result ≡ Spec.fingers_on_trackpad source }
{
    matches!(source, Some(WheelSource::Trackpad))
}
