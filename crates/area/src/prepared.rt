// What `begin` hands to `end`.
use crate::state::ScrollingToTarget;
use numbers::Rangef;

// What of the state moves on one axis.
#[derive(Clone, Copy, Debug, PartialEq)]
pub struct AxisMotion {
    pub offset: f32,
    pub vel: f32,
    pub offset_target: Option<ScrollingToTarget>,
    pub scroll_stuck_to_end: bool,
}

// What else the last frame left on one axis: the bounds, and what the wheel and the bar go on from.
#[derive(Clone, Copy, Debug, PartialEq)]
pub struct AxisBefore {
    pub max_offset: f32,
    pub content_is_too_large: bool,
    pub bounced_this_momentum: bool,
    pub press: Option<f32>,
}

// The space of one axis: what the other axis's bar takes of it, the inner size, the inner rectangle's side, and the side
// of the rectangle that the content is clipped to.
#[derive(Clone, Copy, Debug, PartialEq)]
pub struct AxisSpace {
    pub bar_use: f32,
    pub inner_size: f32,
    pub inner: Rangef,
    pub clip: Rangef,
}

// One axis after drag or step and the target under way.
// Stays: rubber_banding beside the motion, here and in later stages. The motion is what is stored, and most stages leave the flag alone.
#[derive(Clone, Copy, Debug, PartialEq)]
pub struct AxisBegun {
    pub motion: AxisMotion,
    pub rubber_banding: bool,
    pub repaint: bool,
}

// Stays: x and y by name, here and in `begin` and `end`, where each takes the other's bar or extent; in `put_out` a map for each field is no shorter.
#[derive(Clone, Copy, Debug, PartialEq)]
pub struct Prepared {
    pub x_space: AxisSpace,
    pub y_space: AxisSpace,
    // Whether there is a response to a drag of the background.
    pub has_background_drag: bool,
    pub x: AxisBegun,
    pub y: AxisBegun,
}
