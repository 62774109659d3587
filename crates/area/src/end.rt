// The second half of a frame: targets and deltas, sizes, the wheel, sticking, bars, the last clamp and the stuck flags.
ghost use Rattle.std.specs.Prelude.{◌≡◌};
ghost use Rattle.numbers.specs.Axis.{index_of, other_of};
ghost use Rattle.area.specs.End as Spec;

use crate::adjust::{Adjusted, adjust_axis};
use crate::bar::{Barred, bar_axis};
use crate::drive::before_of;
use crate::extent::{AxisExtent, extent_of};
use crate::final_clamp::{FinalClamp, final_clamp_axis};
use crate::frame::FrameView;
use crate::geometry::shows_bar;
use crate::handle::BarSpace;
use crate::prepared::{AxisBefore, AxisBegun, AxisSpace, Prepared};
use crate::state::{ScrollingToTarget, State};
use crate::stick::stick_axis;
use crate::wheel_turn::{Turned, WheelHeard, hear_wheel, turn_axis};
use numbers::{Axis, Rect};

// One axis at the end of a frame.
#[derive(Clone, Copy, Debug, PartialEq)]
pub struct AxisEnded {
    pub offset: f32,
    pub vel: f32,
    pub offset_target: Option<ScrollingToTarget>,
    pub scroll_stuck_to_end: bool,
    pub bounced_this_momentum: bool,
    pub press: Option<f32>,
    pub scroll_bar_interaction: bool,
    pub show_scroll: bool,
    pub handle: Option<Rect>,
    // Stays: a flag, as in Pressed.
    pub is_press_blocked: bool,
    pub consumed: bool,
    pub had_explicit_scroll_adjustment: bool,
}

// The extent of an axis, and of the other one.
#[derive(Clone, Copy, Debug, PartialEq)]
pub struct Extents {
    pub this: AxisExtent,
    pub other: AxisExtent,
}

#[derive(Clone, Copy, Debug, PartialEq)]
pub struct Ended {
    pub x_extent: AxisExtent,
    pub y_extent: AxisExtent,
    pub wheel: WheelHeard,
    pub x: AxisEnded,
    pub y: AxisEnded,
}

#[tactic(auto, unfolding(crate::specs::End::end_of))]
pub fn end(frame: &FrameView, state: State, prepared: Prepared) -> Ended
    ensures { result ≡ Spec.end_of frame.now state prepared }
{
    let x_extent = extent_of(frame, Axis::X, prepared.x_space);
    let y_extent = extent_of(frame, Axis::Y, prepared.y_space);
    let dragged = prepared.has_background_drag & frame.dragged();
    let wheel = hear_wheel(frame, outer_rect_of(x_extent, y_extent), dragged);
    let for_x = Extents {
        this: x_extent,
        other: y_extent,
    };
    let for_y = Extents {
        this: y_extent,
        other: x_extent,
    };
    let x = end_axis(
        frame,
        Axis::X,
        before_of(state, Axis::X),
        prepared.x_space,
        for_x,
        wheel,
        prepared.x,
    );
    let y = end_axis(
        frame,
        Axis::Y,
        before_of(state, Axis::Y),
        prepared.y_space,
        for_y,
        wheel,
        prepared.y,
    );
    Ended {
        x_extent,
        y_extent,
        wheel,
        x,
        y,
    }
}

// One axis through all stages; of the other axis only the space matters.
// Stays: `before` beside frame and axis. It is a row of the state, and a struct of the three would be taken apart in each clause.
#[tactic(auto, unfolding(crate::specs::End::axis_ended_of))]
fn end_axis(
    frame: &FrameView,
    d: Axis,
    before: AxisBefore,
    space: AxisSpace,
    extents: Extents,
    wheel: WheelHeard,
    begun: AxisBegun,
) -> AxisEnded
    ensures { result ≡ Spec.axis_ended_of frame.now (index_of d) (index_of (other_of d)) before space extents wheel begun }
{
    let adjusted = adjust_axis(frame, d, space, begun.motion);
    let turned = turn_axis(
        frame,
        d,
        before,
        space,
        extents.this,
        wheel,
        adjusted.motion,
        begun.rubber_banding,
    );
    finish_axis(frame, d, before, extents, adjusted, turned)
}

// Sticking, the bar, the last clamp.
#[tactic(auto, unfolding(crate::specs::End::finished_of))]
fn finish_axis(
    frame: &FrameView,
    d: Axis,
    before: AxisBefore,
    extents: Extents,
    adjusted: Adjusted,
    turned: Turned,
) -> AxisEnded
    ensures { result ≡ Spec.finished_of frame.now (index_of d) (index_of (other_of d)) before extents adjusted turned }
{
    let sticks = frame.stick_to_end(d);
    let explicit = adjusted.had_explicit_scroll_adjustment;
    let show = shows_bar(
        frame,
        extents.this.content_is_too_large,
        frame.direction_enabled(d),
    );
    let stuck = stick_axis(turned.motion, sticks, explicit, extents.this.max_offset);
    let barred = bar_axis(
        frame,
        d,
        BarSpace::from(extents),
        show,
        turned.rubber_banding,
        before.press,
        stuck,
    );
    let last = final_clamp_axis(
        barred.motion,
        turned.rubber_banding,
        extents.this.max_offset,
        sticks,
        explicit,
    );
    ended_of(explicit, turned, show, barred, last)
}

#[tactic(auto, unfolding(crate::specs::End::ended_by))]
fn ended_of(
    explicit: bool,
    turned: Turned,
    show: bool,
    barred: Barred,
    last: FinalClamp,
) -> AxisEnded
    ensures { result ≡ Spec.ended_by explicit turned show barred last }
{
    AxisEnded {
        offset: last.offset,
        vel: barred.motion.vel,
        offset_target: barred.motion.offset_target,
        scroll_stuck_to_end: last.scroll_stuck_to_end,
        bounced_this_momentum: turned.bounced_this_momentum,
        press: barred.press,
        scroll_bar_interaction: barred.scroll_bar_interaction,
        show_scroll: show,
        handle: barred.handle,
        is_press_blocked: barred.is_press_blocked,
        consumed: turned.consumed,
        had_explicit_scroll_adjustment: explicit,
    }
}

impl From<Extents> for BarSpace {
    ghost from_gives = { λ extents space. space ≡ Spec.bar_space_of extents };

    #[tactic(auto, unfolding(crate::specs::End::bar_space_of))]
    fn from(extents: Extents) -> Self {
        BarSpace {
            content_size: extents.this.content_size,
            inner: extents.this.inner,
            inner_size: extents.this.size,
            max_offset: extents.this.max_offset,
            cross_inner_max: extents.other.inner.max,
            cross_outer_max: extents.other.outer.max,
        }
    }
}

// The inner rectangle as the content shrank it.
#[tactic(auto, unfolding(crate::specs::End::shrunk_rect_of))]
pub fn shrunk_rect_of(x: AxisExtent, y: AxisExtent) -> Rect
    ensures { result ≡ Spec.shrunk_rect_of x y }
{
    Rect::from_x_y_ranges(x.inner, y.inner)
}

#[tactic(auto, unfolding(crate::specs::End::outer_rect_of))]
fn outer_rect_of(x: AxisExtent, y: AxisExtent) -> Rect
    ensures { result ≡ Spec.outer_rect_of x y }
{
    Rect::from_x_y_ranges(x.outer, y.outer)
}

// Check 7, on either axis.
#[tactic(auto, unfolding(crate::specs::End::is_press_blocked))]
pub fn is_press_blocked(ended: Ended) -> bool
    ensures { result ≡ Spec.is_press_blocked ended }
{
    ended.x.is_press_blocked | ended.y.is_press_blocked
}
