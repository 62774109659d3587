// The space that a frame begins with: what is available, less the bars, and what of it the content is clipped to.
ghost use Rattle.std.specs.Prelude.{◌≡◌};
ghost use Rattle.numbers.specs.Axis.{index_of, other_of};
ghost use Rattle.area.specs.Space as Spec;

use crate::frame::FrameView;
use crate::geometry::shows_bar;
use crate::prepared::AxisSpace;
use numbers::{Axis, Rangef, Rect, flag_as_number};

// What the bar of the other axis leaves of the side that is available to axis d, and what of that the content is clipped to.
#[tactic(auto, unfolding(crate::specs::Space::space_of, crate::specs::Space::space_by))]
pub fn space_of(frame: &FrameView, was_shown: bool, d: Axis) -> AxisSpace
    ensures { result ≡ Spec.space_of frame.now was_shown (index_of d) (index_of (other_of d)) }
{
    let direction_enabled = frame.direction_enabled(d);
    let bar_use = current_bar_use(frame, was_shown, d.other());
    let available = frame.available_side(d);
    let outer_size = numbers::min(available.max - available.min, frame.max_size(d));
    let size = outer_size - bar_use;
    let inner_size = inner_size_of(direction_enabled, size, frame.min_scrolled_size(d));
    let inner = Rangef {
        min: available.min,
        max: available.min + inner_size,
    };
    AxisSpace {
        bar_use,
        inner_size,
        inner,
        clip: content_clip_of(direction_enabled, inner, bar_use, frame.clip_side(d)),
    }
}

// The rectangle through which the content is seen.
#[tactic(auto, unfolding(crate::specs::Space::inner_rect))]
pub fn inner_rect(x: AxisSpace, y: AxisSpace) -> Rect
    ensures { result ≡ Spec.inner_rect x y }
{
    Rect::from_x_y_ranges(x.inner, y.inner)
}

// What the bar of axis e takes, as far as the last frame tells whether it shows: a floating bar its width at once, a solid one
// little by little as it opens.
#[tactic(auto, unfolding(crate::specs::Space::current_bar_use_of, crate::specs::Space::bar_use_of))]
fn current_bar_use(frame: &FrameView, was_shown: bool, e: Axis) -> f32
    ensures { result ≡ Spec.current_bar_use_of frame.now was_shown (index_of e) }
{
    if frame.floating() {
        let show_bar = shows_bar(frame, was_shown, frame.direction_enabled(e));
        return flag_as_number(show_bar) * frame.allocated_width();
    }
    frame.bar_factor(e) * frame.allocated_width()
}

// An area that scrolls keeps a least size, so that one inside another does not collapse.
#[tactic(auto, unfolding(crate::specs::Space::inner_size_of))]
fn inner_size_of(direction_enabled: bool, size: f32, min_scrolled_size: f32) -> f32
    ensures { result ≡ Spec.inner_size_of direction_enabled size min_scrolled_size }
{
    if direction_enabled {
        return numbers::max(size, min_scrolled_size);
    }
    size
}

// Content is cut at the inner rectangle only where it scrolls, and never beyond the clip around the area.
#[tactic(auto, unfolding(crate::specs::Space::content_clip_of))]
fn content_clip_of(direction_enabled: bool, inner: Rangef, bar_use: f32, clip: Rangef) -> Rangef
    ensures { result ≡ Spec.content_clip_of direction_enabled inner bar_use clip }
{
    if direction_enabled {
        return inner.intersection(clip);
    }
    let less_bar = Rangef {
        min: clip.min,
        max: clip.max - bar_use,
    };
    less_bar.intersection(clip)
}
