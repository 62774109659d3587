// What both halves of a frame ask of it.
ghost use Rattle.std.specs.Prelude.{◌≡◌};
ghost use Rattle.numbers.specs.Axis.{index_of};
ghost use Rattle.area.specs.Geometry as Spec;
ghost use Rattle.area.specs.Space as Space;

use crate::fields::ScrollBarVisibility;
use crate::frame::FrameView;
use numbers::{Axis, Rangef, Rect};

// A rectangle's side along axis d.
#[tactic(auto, unfolding(crate::specs::Space::side_of))]
pub fn side_of(rect: Rect, d: Axis) -> Rangef
    ensures { result ≡ Space.side_of rect (index_of d) }
{
    Rangef {
        min: rect.min.along(d),
        max: rect.max.along(d),
    }
}

// Whether a bar is to show, where `needed` says whether the content asks for it.
#[tactic(auto, unfolding(crate::specs::Geometry::shows_bar))]
pub fn shows_bar(frame: &FrameView, needed: bool, enabled: bool) -> bool
    ensures { result ≡ Spec.shows_bar frame.now.settings.scroll_bar_visibility needed enabled }
{
    match frame.scroll_bar_visibility() {
        ScrollBarVisibility::AlwaysHidden => false,
        ScrollBarVisibility::VisibleWhenNeeded => needed,
        ScrollBarVisibility::AlwaysVisible => enabled,
    }
}

// A rectangle holds the pointer if its intersection with the clip does.
#[tactic(auto, unfolding(crate::specs::Geometry::rect_contains_pointer))]
pub fn rect_contains_pointer(frame: &FrameView, rect: Rect) -> bool
    ensures { result ≡ Spec.rect_contains_pointer frame.now.host.clip frame.now.host.pointer rect }
{
    match frame.pointer() {
        None => false,
        Some(p) => frame.clip().intersect(rect).contains(p),
    }
}
