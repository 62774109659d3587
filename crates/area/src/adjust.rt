// Targets and deltas: where the content asks to be scrolled to, and what that does to the motion of one axis.
ghost use Rattle.std.specs.Prelude.{◌≡◌};
ghost use Rattle.numbers.specs.Axis.{index_of};
ghost use Rattle.area.specs.Adjust as Spec;

use crate::fields::{ScrollAnimation, ScrollTarget};
use crate::frame::FrameView;
use crate::prepared::{AxisMotion, AxisSpace};
use crate::state::ScrollingToTarget;
use numbers::{Align, Axis, Rangef, abs, lerp, min, remap, widen};

// One axis of the visible window that a target is brought into: where the content starts, the clip's side, and the space
// to leave around the target.
#[derive(Clone, Copy, Debug, PartialEq)]
pub struct AxisView {
    pub min: f32,
    pub clip_start: f32,
    pub clip_end: f32,
    pub spacing: f32,
}

// How far the content asks to be scrolled, and how fast if that is animated.
#[derive(Clone, Copy, Debug, PartialEq)]
pub struct AskedDelta {
    pub delta: f32,
    pub animation: ScrollAnimation,
}

// The motion after a request, and whether there was one; if so, a repaint is wanted too.
#[derive(Clone, Copy, Debug, PartialEq)]
pub struct Adjusted {
    pub motion: AxisMotion,
    // Stays: a flag beside the motion. The motion stands either way, and later stages ask for the flag alone.
    pub had_explicit_scroll_adjustment: bool,
}

// Scrolls one axis as its content asks: not at all, at once, or by a target that later frames follow. An axis that is not enabled drops
// what its content asks for.
#[tactic(auto, unfolding(crate::specs::Adjust::adjusted_of, crate::specs::Adjust::adjusted_by))]
pub fn adjust_axis(frame: &FrameView, d: Axis, space: AxisSpace, motion: AxisMotion) -> Adjusted
    ensures { result ≡ Spec.adjusted_of frame.now (index_of d) space motion }
{
    // Seen from the offset that `begin` left.
    let asked = ask(frame, d, space, motion.offset);
    if frame.direction_enabled(d) & (asked.delta != 0.0) {
        return move_by(motion, asked, frame.animated(), frame.time());
    }
    Adjusted {
        motion,
        had_explicit_scroll_adjustment: false,
    }
}

// A scroll delta points against the offset, so it is negated; a target adds to it, and its animation counts.
#[tactic(auto, unfolding(crate::specs::Adjust::asked_at, crate::specs::Adjust::asked_of))]
fn ask(frame: &FrameView, d: Axis, space: AxisSpace, offset: f32) -> AskedDelta
    ensures { result ≡ Spec.asked_at frame.now (index_of d) space offset }
{
    let delta = -frame.scroll_delta(d);
    match frame.target_request(d) {
        None => AskedDelta {
            delta,
            animation: frame.scroll_delta_animation(),
        },
        Some(target) => AskedDelta {
            delta: delta + delta_update(target, view_of(frame, d, space), offset),
            animation: target.animation,
        },
    }
}

// A target's range is in the ui's coordinates, as the clip's side is.
#[tactic(auto, unfolding(crate::specs::Adjust::view_of))]
fn view_of(frame: &FrameView, d: Axis, space: AxisSpace) -> AxisView
    ensures { result ≡ Spec.view_of frame.now (index_of d) space }
{
    AxisView {
        min: frame.content_min(d),
        clip_start: space.clip.min,
        clip_end: space.clip.max,
        spacing: frame.item_spacing(d),
    }
}

// Without an alignment a target is only brought into view.
#[tactic(auto, unfolding(crate::specs::Adjust::delta_update))]
fn delta_update(target: ScrollTarget, view: AxisView, offset: f32) -> f32
    ensures { result ≡ Spec.delta_update target view offset }
{
    match target.align {
        Some(align) => aligned_delta(align, target.range, view, offset),
        None => into_view_delta(target.range, view),
    }
}

// Puts the target at the start, center or end of the view, spacing included: subtracted at the start, added at the end.
#[tactic(auto, unfolding(crate::specs::Adjust::aligned_delta))]
fn aligned_delta(align: Align, range: Rangef, view: AxisView, state_offset: f32) -> f32
    ensures { result ≡ Spec.aligned_delta align range view state_offset }
{
    let center_factor = align.to_factor();
    let visible_end = view.min + (view.clip_end - view.clip_start);
    let offset = lerp(range.min, range.max, center_factor)
        - lerp(view.min, visible_end, center_factor);
    let spacing = view.spacing * remap(center_factor, 0.0, 1.0, -1.0, 1.0);
    offset + spacing - state_offset
}

// Moves no further than it takes to see the target, and not at all where it is in view or sticks out on both sides.
#[tactic(auto, unfolding(crate::specs::Adjust::into_view_delta))]
fn into_view_delta(range: Rangef, view: AxisView) -> f32
    ensures { result ≡ Spec.into_view_delta range view }
{
    if (range.min < view.clip_start) & (range.max < view.clip_end) {
        return -min(
            view.clip_start - range.min + view.spacing,
            view.clip_end - range.max - view.spacing,
        );
    }
    if (view.clip_end < range.max) & (view.clip_start < range.min) {
        return min(
            range.max - view.clip_end + view.spacing,
            range.min - view.clip_start - view.spacing,
        );
    }
    0.0
}

// Without animation the offset jumps, and a target under way stays and goes on in the next frame.
#[tactic(auto, unfolding(crate::specs::Adjust::moved_by))]
fn move_by(motion: AxisMotion, asked: AskedDelta, animated: bool, now: f64) -> Adjusted
    ensures { result ≡ Spec.moved_by motion asked animated now }
{
    let target_offset = motion.offset + asked.delta;
    if !animated {
        return Adjusted {
            motion: AxisMotion {
                offset: target_offset,
                ..motion
            },
            had_explicit_scroll_adjustment: true,
        };
    }
    let offset_target = retarget(motion.offset_target, target_offset, asked, now);
    Adjusted {
        motion: AxisMotion {
            offset_target: Some(offset_target),
            ..motion
        },
        had_explicit_scroll_adjustment: true,
    }
}

// A target under way keeps its time, so that asking again in every frame does not start it anew. A new one
// begins now.
#[tactic(auto, unfolding(crate::specs::Adjust::retarget_of))]
fn retarget(
    offset_target: Option<ScrollingToTarget>,
    target_offset: f32,
    asked: AskedDelta,
    now: f64,
) -> ScrollingToTarget
    ensures { Some result ≡ Spec.retarget_of offset_target target_offset asked.delta asked.animation now }
{
    match offset_target {
        Some(to) => ScrollingToTarget {
            target_offset,
            ..to
        },
        None => ScrollingToTarget {
            start: now,
            end: now + widen(duration_of(asked)),
            target_offset,
        },
    }
}

// The further we scroll, the more time we take.
fn duration_of(asked: AskedDelta) -> f32
    ensures { result ≡ Spec.animation_duration asked.delta asked.animation }
{
    let ScrollAnimation {
        points_per_second,
        duration,
    } = asked.animation;
    duration.clamp(abs(asked.delta) / points_per_second)
}
