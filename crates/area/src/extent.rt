// How long the content, the inner and the outer rectangle are along one axis, now that the content is known.
ghost use Rattle.std.specs.Prelude.{◌≡◌};
ghost use Rattle.numbers.specs.Axis.{index_of};
ghost use Rattle.area.specs.Extent as Spec;

use crate::frame::FrameView;
use crate::prepared::AxisSpace;
use numbers::{Axis, Rangef, ceil, max, min};

// The inner rectangle's side as shrunk, with its size; the outer one's; how far the offset may go, negative where the
// content fits; and whether it does not.
#[derive(Clone, Copy, Debug, PartialEq)]
pub struct AxisExtent {
    pub content_size: f32,
    pub inner: Rangef,
    pub size: f32,
    pub outer: Rangef,
    pub max_offset: f32,
    pub content_is_too_large: bool,
}

// Starts from the size of begin's inner rectangle, rounded again, not from begin's inner size. A floating bar lies over the content, so
// the content may also fill the bar's space before it counts as too large.
#[tactic(auto, unfolding(crate::specs::Extent::extent_of, crate::specs::Extent::extent_by, crate::specs::Geometry::pick_of))]
pub fn extent_of(frame: &FrameView, d: Axis, space: AxisSpace) -> AxisExtent
    ensures { result ≡ Spec.extent_of frame.now (index_of d) space }
{
    let enabled = frame.direction_enabled(d);
    let auto_shrink = frame.auto_shrink(d);
    let content_size = frame.content_size_along(d);
    let Rangef { min, max } = space.inner;
    let end = min + inner_size_of(enabled, auto_shrink, max - min, content_size);
    let size = end - min;
    let outer_max = min + (size + space.bar_use);
    let limit = if frame.floating() {
        outer_max - min
    } else {
        size
    };
    AxisExtent {
        content_size,
        inner: Rangef { min, max: end },
        size,
        outer: Rangef {
            min,
            max: outer_max,
        },
        max_offset: content_size - size,
        content_is_too_large: enabled & (ceil(limit) < content_size),
    }
}

// A scrolled axis keeps its size, or shrinks to small content; any other follows the content, or grows to it.
#[tactic(auto, unfolding(crate::specs::Extent::inner_size_of))]
fn inner_size_of(enabled: bool, auto_shrink: bool, inner_size: f32, content_size: f32) -> f32
    ensures { result ≡ Spec.inner_size_of enabled auto_shrink inner_size content_size }
{
    match (enabled, auto_shrink) {
        (true, true) => min(inner_size, content_size),
        (true, false) => inner_size,
        (false, true) => content_size,
        (false, false) => max(inner_size, content_size),
    }
}
