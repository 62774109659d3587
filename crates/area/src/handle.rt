// Where one axis's bar stands and where its handle is on it.
ghost use Rattle.std.specs.Prelude.{◌≡◌};
ghost use Rattle.numbers.specs.Axis.{index_of, other_of};
ghost use Rattle.area.specs.Handle as Spec;

use crate::frame::FrameView;
use crate::geometry::side_of;
use numbers::{Axis, Rangef, Rect, lerp, max, remap_clamp};

// What a bar needs of the space of its axis, and of the other axis the ends of the inner and the outer rectangle.
#[derive(Clone, Copy, Debug, PartialEq)]
pub struct BarSpace {
    pub content_size: f32,
    pub inner: Rangef,
    pub inner_size: f32,
    pub max_offset: f32,
    pub cross_inner_max: f32,
    pub cross_outer_max: f32,
}

// A bar: its side along the axis, its side across, and what the handle on it stands for.
#[derive(Clone, Copy, Debug, PartialEq)]
pub struct Track {
    pub bar: Rangef,
    pub cross: Rangef,
    pub content_size: f32,
    pub inner_size: f32,
    pub max_offset: f32,
    pub handle_min_length: f32,
}

// A bar that is to show at once takes the factor that it opens with.
#[tactic(auto, unfolding(crate::specs::Handle::show_factor_of, crate::specs::Geometry::pick_of))]
pub fn show_factor_of(show_scroll: bool, bar_factor: f32, opening_factor: f32) -> f32
    ensures { result ≡ Spec.show_factor_of show_scroll bar_factor opening_factor }
{
    if show_scroll & (bar_factor <= 0.0) {
        opening_factor
    } else {
        bar_factor
    }
}

// The bar's far side; moved in where the clip would hide it.
#[tactic(auto, unfolding(crate::specs::Handle::max_cross_of))]
fn max_cross_of(outer_max: f32, clip_max: f32, outer_margin: f32) -> f32
    ensures { result ≡ Spec.max_cross_of outer_max clip_max outer_margin }
{
    let max_cross = outer_max - outer_margin;
    let clipped = clip_max - outer_margin;
    if clipped < max_cross {
        return clipped;
    }
    max_cross
}

// A floating bar grows as the pointer comes near; another one fills what was set aside for it.
#[tactic(auto, unfolding(crate::specs::Handle::cross_of))]
fn cross_of(
    frame: &FrameView,
    show_factor: f32,
    hover_factor: f32,
    max_cross: f32,
    inner_max: f32,
) -> Rangef
    ensures { result ≡ Spec.cross_of frame.now.style show_factor hover_factor max_cross inner_max }
{
    if frame.floating() {
        let width = show_factor * lerp(frame.floating_width(), frame.bar_width(), hover_factor);
        return Rangef {
            min: max_cross - width,
            max: max_cross,
        };
    }
    let inner_margin = show_factor * frame.bar_inner_margin();
    Rangef {
        min: inner_max + inner_margin,
        max: max_cross,
    }
}

// The bar's side along the axis: the inner rectangle's, unless the host gave one.
#[tactic(auto, unfolding(crate::specs::Handle::bar_range_of, crate::specs::Space::side_of))]
fn bar_range_of(frame: &FrameView, inner: Rangef, d: Axis) -> Rangef
    ensures { result ≡ Spec.bar_range_of frame.now.settings.scroll_bar_rect inner (index_of d) }
{
    match frame.scroll_bar_rect() {
        None => inner,
        Some(rect) => side_of(rect, d),
    }
}

// The bar of axis d; along the other axis it has its width.
#[tactic(auto, unfolding(crate::specs::Handle::track_of, crate::specs::Space::side_of))]
pub fn track_of(frame: &FrameView, d: Axis, space: BarSpace, show_factor: f32) -> Track
    ensures { result ≡ Spec.track_of frame.now (index_of d) (index_of (other_of d)) space show_factor }
{
    let outer_margin = show_factor * frame.bar_outer_margin();
    let max_cross = max_cross_of(
        space.cross_outer_max,
        frame.clip_side(d.other()).max,
        outer_margin,
    );
    let cross = cross_of(
        frame,
        show_factor,
        frame.hover_factor(d),
        max_cross,
        space.cross_inner_max,
    );
    Track {
        bar: bar_range_of(frame, space.inner, d),
        cross,
        content_size: space.content_size,
        inner_size: space.inner_size,
        max_offset: space.max_offset,
        handle_min_length: frame.handle_min_length(),
    }
}

impl Track {
    // Where on the bar a place in the content is.
    #[tactic(auto, unfolding(crate::specs::Handle::from_content))]
    fn from_content(self, content: f32) -> f32
        ensures { result ≡ Spec.from_content self content }
    {
        remap_clamp(content, 0.0, self.content_size, self.bar.min, self.bar.max)
    }

    // As long as the part in view is on the bar, and never too short to be taken hold of.
    #[tactic(auto, unfolding(crate::specs::Handle::handle_size_of))]
    fn handle_size(self, offset: f32) -> f32
        ensures { result ≡ Spec.handle_size_of self offset }
    {
        let size = self.from_content(offset + self.inner_size) - self.from_content(offset);
        max(size, self.handle_min_length)
    }

    // The handle's side along the axis. It stays on the bar where the offset is past the edge.
    #[tactic(auto, unfolding(crate::specs::Handle::handle_of))]
    pub fn calculate_handle(self, offset: f32) -> Rangef
        ensures { result ≡ Spec.handle_of self offset }
    {
        let handle_size = self.handle_size(offset);
        let handle_start_point = remap_clamp(
            offset,
            0.0,
            self.max_offset,
            self.bar.min,
            self.bar.max - handle_size,
        );
        Rangef {
            min: handle_start_point,
            max: handle_start_point + handle_size,
        }
    }
}

// The handle's rectangle from its two sides.
#[tactic(auto, unfolding(crate::specs::Handle::handle_rect_of, numbers::specs::Shape::from_x_y_ranges_of))]
pub fn handle_rect_of(handle: Rangef, cross: Rangef, d: Axis) -> Rect
    ensures { result ≡ Spec.handle_rect_of handle cross (index_of d) }
{
    match d {
        Axis::X => Rect::from_x_y_ranges(handle, cross),
        Axis::Y => Rect::from_x_y_ranges(cross, handle),
    }
}
