// A frame that a host hands in, by its bytes: seen, it is what its words stand for. Each field is read from its own words.
ghost use Rattle.std.specs.Prelude.{◌≡◌, slice_index_or};
ghost use Rattle.numbers.specs.Axis.{index_of};
ghost use Rattle.area.specs.Pair.{num, flag};
ghost use Rattle.area.specs.Space.{side_of};
ghost use Rattle.area.specs.Bar.{no_response};
ghost use Rattle.area.specs.Drive.{no_given_offset};
ghost use Rattle.area.specs.Adjust.{request_at};
ghost use Rattle.area.specs.Frame.{Whole, frame_of};
ghost use Rattle.area.specs.declared.fields.Frame.{Frame};

use crate::decode::{FromWords, kind_along, kind_at, words_along};
use crate::fields::{BarResponse, DragScroll, ScrollAnimation, ScrollBarVisibility, ScrollTarget};
use crate::geometry::side_of;
use axis::{KineticScrollStyle, WheelSource};
use numbers::{Axis, Pos2, Rangef, Rect, along};
use std::marker::Model;

/// The bytes of a frame.
pub const FRAME: usize = 416;

#[derive(Drop)]
pub struct FrameView<'a> {
    // Stays: a slice, whose length the invariant has. An array's reference would be copied first in each reader, as in Walk::word.
    bytes: &'a [u8],
}

impl<'a> Model for FrameView<'a> {
    ghost Value = { Frame };

    ghost view = { λ frame. frame_of frame.bytes.now };

    ghost invariant = { λ frame. Whole frame.bytes.now };
}

impl<'a> FrameView<'a> {
    pub fn new(bytes: &'a [u8; FRAME]) -> Self
        ensures { result ≡ frame_of bytes.now }
    {
        FrameView { bytes }
    }

    // Stays: d beside the frame, as the Rust indexes `max_size[d]`. Definitions take both, and a struct would be taken apart in each clause.

    // ---- how the scroll area was built

    #[tactic(auto, unfolding(crate::specs::Frame::frame_of, crate::specs::Frame::settings_of, crate::specs::Frame::flags_no, crate::specs::Frame::flag_no, crate::specs::Frame::both_no))]
    pub fn direction_enabled(&self, d: Axis) -> bool
        ensures { result ≡ flag self.now.settings.direction_enabled (index_of d) }
    {
        kind_along(self.bytes, 1, d)
    }

    #[tactic(auto, unfolding(crate::specs::Frame::frame_of, crate::specs::Frame::settings_of, crate::specs::Frame::flags_no, crate::specs::Frame::flag_no, crate::specs::Frame::both_no))]
    pub fn auto_shrink(&self, d: Axis) -> bool
        ensures { result ≡ flag self.now.settings.auto_shrink (index_of d) }
    {
        kind_along(self.bytes, 3, d)
    }

    #[tactic(auto, unfolding(crate::specs::Frame::frame_of, crate::specs::Frame::settings_of, crate::specs::Frame::pair_no, crate::specs::Frame::number_no, crate::specs::Frame::both_no))]
    pub fn max_size(&self, d: Axis) -> f32
        ensures { result ≡ num self.now.settings.max_size (index_of d) }
    {
        kind_along(self.bytes, 5, d)
    }

    #[tactic(auto, unfolding(crate::specs::Frame::frame_of, crate::specs::Frame::settings_of, crate::specs::Frame::pair_no, crate::specs::Frame::number_no, crate::specs::Frame::both_no))]
    pub fn min_scrolled_size(&self, d: Axis) -> f32
        ensures { result ≡ num self.now.settings.min_scrolled_size (index_of d) }
    {
        kind_along(self.bytes, 7, d)
    }

    #[tactic(auto, unfolding(crate::specs::Frame::frame_of, crate::specs::Frame::settings_of))]
    pub fn scroll_bar_visibility(&self) -> ScrollBarVisibility
        ensures { result ≡ self.now.settings.scroll_bar_visibility }
    {
        kind_at(self.bytes, 9)
    }

    #[tactic(auto, unfolding(crate::specs::Frame::frame_of, crate::specs::Frame::settings_of))]
    pub fn scroll_bar_rect(&self) -> Option<Rect>
        ensures { result ≡ self.now.settings.scroll_bar_rect }
    {
        Option::at(self.bytes, 10)
    }

    #[tactic(auto, unfolding(crate::specs::Frame::frame_of, crate::specs::Frame::settings_of))]
    pub fn given_offset(&self, d: Axis) -> Option<f32>
        ensures { result ≡ slice_index_or self.now.settings.offset (index_of d) no_given_offset }
    {
        words_along(self.bytes, 15, 17, d)
    }

    #[tactic(auto, unfolding(crate::specs::Frame::frame_of, crate::specs::Frame::settings_of))]
    pub fn drag(&self) -> DragScroll
        ensures { result ≡ self.now.settings.drag }
    {
        kind_at(self.bytes, 20)
    }

    #[tactic(auto, unfolding(crate::specs::Frame::frame_of, crate::specs::Frame::settings_of))]
    pub fn mouse_wheel(&self) -> bool
        ensures { result ≡ self.now.settings.mouse_wheel }
    {
        bool::at(self.bytes, 21)
    }

    #[tactic(auto, unfolding(crate::specs::Frame::frame_of, crate::specs::Frame::settings_of, crate::specs::Frame::pair_no, crate::specs::Frame::number_no, crate::specs::Frame::both_no))]
    pub fn wheel_scroll_multiplier(&self, d: Axis) -> f32
        ensures { result ≡ num self.now.settings.wheel_scroll_multiplier (index_of d) }
    {
        kind_along(self.bytes, 22, d)
    }

    #[tactic(auto, unfolding(crate::specs::Frame::frame_of, crate::specs::Frame::settings_of, crate::specs::Frame::flags_no, crate::specs::Frame::flag_no, crate::specs::Frame::both_no))]
    pub fn stick_to_end(&self, d: Axis) -> bool
        ensures { result ≡ flag self.now.settings.stick_to_end (index_of d) }
    {
        kind_along(self.bytes, 24, d)
    }

    #[tactic(auto, unfolding(crate::specs::Frame::frame_of, crate::specs::Frame::settings_of))]
    pub fn animated(&self) -> bool
        ensures { result ≡ self.now.settings.animated }
    {
        bool::at(self.bytes, 26)
    }

    // ---- how bars and motion look

    #[tactic(auto, unfolding(crate::specs::Frame::frame_of, crate::specs::Frame::style_of))]
    pub fn floating(&self) -> bool
        ensures { result ≡ self.now.style.floating }
    {
        bool::at(self.bytes, 27)
    }

    #[tactic(auto, unfolding(crate::specs::Frame::frame_of, crate::specs::Frame::style_of))]
    pub fn allocated_width(&self) -> f32
        ensures { result ≡ self.now.style.allocated_width }
    {
        f32::at(self.bytes, 28)
    }

    #[tactic(auto, unfolding(crate::specs::Frame::frame_of, crate::specs::Frame::style_of))]
    pub fn bar_width(&self) -> f32
        ensures { result ≡ self.now.style.bar_width }
    {
        f32::at(self.bytes, 29)
    }

    #[tactic(auto, unfolding(crate::specs::Frame::frame_of, crate::specs::Frame::style_of))]
    pub fn bar_inner_margin(&self) -> f32
        ensures { result ≡ self.now.style.bar_inner_margin }
    {
        f32::at(self.bytes, 30)
    }

    #[tactic(auto, unfolding(crate::specs::Frame::frame_of, crate::specs::Frame::style_of))]
    pub fn bar_outer_margin(&self) -> f32
        ensures { result ≡ self.now.style.bar_outer_margin }
    {
        f32::at(self.bytes, 31)
    }

    #[tactic(auto, unfolding(crate::specs::Frame::frame_of, crate::specs::Frame::style_of))]
    pub fn floating_width(&self) -> f32
        ensures { result ≡ self.now.style.floating_width }
    {
        f32::at(self.bytes, 32)
    }

    #[tactic(auto, unfolding(crate::specs::Frame::frame_of, crate::specs::Frame::style_of))]
    pub fn handle_min_length(&self) -> f32
        ensures { result ≡ self.now.style.handle_min_length }
    {
        f32::at(self.bytes, 33)
    }

    #[tactic(auto, unfolding(crate::specs::Frame::frame_of, crate::specs::Frame::style_of, crate::specs::Frame::pair_no, crate::specs::Frame::number_no, crate::specs::Frame::both_no))]
    pub fn item_spacing(&self, d: Axis) -> f32
        ensures { result ≡ num self.now.style.item_spacing (index_of d) }
    {
        kind_along(self.bytes, 34, d)
    }

    #[tactic(auto, unfolding(crate::specs::Frame::frame_of, crate::specs::Frame::style_of))]
    pub fn always_scroll_the_only_direction(&self) -> bool
        ensures { result ≡ self.now.style.always_scroll_the_only_direction }
    {
        bool::at(self.bytes, 36)
    }

    #[tactic(auto, unfolding(crate::specs::Frame::frame_of, crate::specs::Frame::style_of, crate::specs::Parts::kinetic_no))]
    pub fn kinetic(&self) -> KineticScrollStyle
        ensures { result ≡ self.now.style.kinetic }
    {
        KineticScrollStyle::at(self.bytes, 37)
    }

    // ---- what the Rust reads from Ui, Context and Response

    #[tactic(auto, unfolding(crate::specs::Frame::frame_of, crate::specs::Frame::host_of))]
    pub fn available_side(&self, d: Axis) -> Rangef
        ensures { result ≡ side_of self.now.host.available (index_of d) }
    {
        side_of(Rect::at(self.bytes, 40), d)
    }

    #[tactic(auto, unfolding(crate::specs::Frame::frame_of, crate::specs::Frame::host_of))]
    pub fn clip(&self) -> Rect
        ensures { result ≡ self.now.host.clip }
    {
        Rect::at(self.bytes, 44)
    }

    #[tactic(auto, unfolding(crate::specs::Frame::frame_of, crate::specs::Frame::host_of))]
    pub fn clip_side(&self, d: Axis) -> Rangef
        ensures { result ≡ side_of self.now.host.clip (index_of d) }
    {
        side_of(self.clip(), d)
    }

    #[tactic(auto, unfolding(crate::specs::Frame::frame_of, crate::specs::Frame::host_of))]
    pub fn enabled(&self) -> bool
        ensures { result ≡ self.now.host.enabled }
    {
        bool::at(self.bytes, 48)
    }

    #[tactic(auto, unfolding(crate::specs::Frame::frame_of, crate::specs::Frame::host_of))]
    pub fn touch(&self) -> bool
        ensures { result ≡ self.now.host.touch }
    {
        bool::at(self.bytes, 49)
    }

    #[tactic(auto, unfolding(crate::specs::Frame::frame_of, crate::specs::Frame::host_of))]
    pub fn scrolling_ancestor(&self) -> bool
        ensures { result ≡ self.now.host.scrolling_ancestor }
    {
        bool::at(self.bytes, 50)
    }

    #[tactic(auto, unfolding(crate::specs::Frame::frame_of, crate::specs::Frame::host_of))]
    pub fn stable_dt(&self) -> f32
        ensures { result ≡ self.now.host.stable_dt }
    {
        f32::at(self.bytes, 51)
    }

    #[tactic(auto, unfolding(crate::specs::Frame::frame_of, crate::specs::Frame::host_of))]
    pub fn time(&self) -> f64
        ensures { result ≡ self.now.host.time }
    {
        f64::at(self.bytes, 52)
    }

    #[tactic(auto, unfolding(crate::specs::Frame::frame_of, crate::specs::Frame::host_of))]
    pub fn pointer(&self) -> Option<Pos2>
        ensures { result ≡ self.now.host.pointer }
    {
        Option::at(self.bytes, 54)
    }

    #[tactic(auto, unfolding(crate::specs::Frame::frame_of, crate::specs::Frame::host_of, crate::specs::Frame::pair_no, crate::specs::Frame::number_no, crate::specs::Frame::both_no))]
    pub fn pointer_delta(&self, d: Axis) -> f32
        ensures { result ≡ num self.now.host.pointer_delta (index_of d) }
    {
        kind_along(self.bytes, 57, d)
    }

    #[tactic(auto, unfolding(crate::specs::Frame::frame_of, crate::specs::Frame::host_of, crate::specs::Frame::pair_no, crate::specs::Frame::number_no, crate::specs::Frame::both_no))]
    pub fn pointer_velocity(&self, d: Axis) -> f32
        ensures { result ≡ num self.now.host.pointer_velocity (index_of d) }
    {
        kind_along(self.bytes, 59, d)
    }

    #[tactic(auto, unfolding(crate::specs::Frame::frame_of, crate::specs::Frame::host_of))]
    pub fn dragged(&self) -> bool
        ensures { result ≡ self.now.host.dragged }
    {
        bool::at(self.bytes, 61)
    }

    #[tactic(auto, unfolding(crate::specs::Frame::frame_of, crate::specs::Frame::host_of))]
    pub fn drag_stopped(&self) -> bool
        ensures { result ≡ self.now.host.drag_stopped }
    {
        bool::at(self.bytes, 62)
    }

    #[tactic(auto, unfolding(crate::specs::Frame::frame_of, crate::specs::Frame::host_of))]
    pub fn source(&self) -> Option<WheelSource>
        ensures { result ≡ self.now.host.source }
    {
        kind_at(self.bytes, 63)
    }

    #[tactic(auto, unfolding(crate::specs::Frame::frame_of, crate::specs::Frame::host_of, crate::specs::Frame::pair_no, crate::specs::Frame::number_no, crate::specs::Frame::both_no))]
    pub fn smooth_scroll_delta(&self, d: Axis) -> f32
        ensures { result ≡ num self.now.host.smooth_scroll_delta (index_of d) }
    {
        kind_along(self.bytes, 64, d)
    }

    #[tactic(auto, unfolding(crate::specs::Frame::frame_of, crate::specs::Frame::host_of, crate::specs::Frame::pair_no, crate::specs::Frame::number_no, crate::specs::Frame::both_no))]
    pub fn bar_factor(&self, d: Axis) -> f32
        ensures { result ≡ num self.now.host.bar_factors (index_of d) }
    {
        kind_along(self.bytes, 66, d)
    }

    #[tactic(auto, unfolding(crate::specs::Frame::frame_of, crate::specs::Frame::host_of, crate::specs::Frame::pair_no, crate::specs::Frame::number_no, crate::specs::Frame::both_no))]
    pub fn opening_factor(&self, d: Axis) -> f32
        ensures { result ≡ num self.now.host.opening_factors (index_of d) }
    {
        kind_along(self.bytes, 68, d)
    }

    #[tactic(auto, unfolding(crate::specs::Frame::frame_of, crate::specs::Frame::host_of, crate::specs::Frame::pair_no, crate::specs::Frame::number_no, crate::specs::Frame::both_no))]
    pub fn hover_factor(&self, d: Axis) -> f32
        ensures { result ≡ num self.now.host.hover_factors (index_of d) }
    {
        kind_along(self.bytes, 70, d)
    }

    #[tactic(auto, unfolding(crate::specs::Frame::frame_of, crate::specs::Frame::host_of))]
    pub fn bar_response(&self, d: Axis) -> BarResponse
        ensures { result ≡ slice_index_or self.now.host.bars (index_of d) no_response }
    {
        words_along(self.bytes, 72, 77, d)
    }

    // ---- what was put into the area in this frame

    #[tactic(auto, unfolding(crate::specs::Frame::frame_of, crate::specs::Frame::content_of, crate::specs::Frame::pair_no, crate::specs::Frame::number_no, crate::specs::Frame::both_no))]
    pub fn content_size(&self) -> [f32; 2]
        ensures { result ≡ self.now.content.size }
    {
        <[f32; 2]>::at(self.bytes, 82)
    }

    #[tactic(auto, unfolding(crate::specs::Frame::frame_of, crate::specs::Frame::content_of, crate::specs::Frame::pair_no, crate::specs::Frame::number_no, crate::specs::Frame::both_no))]
    pub fn content_size_along(&self, d: Axis) -> f32
        ensures { result ≡ num self.now.content.size (index_of d) }
    {
        along(self.content_size(), d)
    }

    #[tactic(auto, unfolding(crate::specs::Frame::frame_of, crate::specs::Frame::content_of, crate::specs::Frame::pair_no, crate::specs::Frame::number_no, crate::specs::Frame::both_no))]
    pub fn content_min(&self, d: Axis) -> f32
        ensures { result ≡ num self.now.content.min (index_of d) }
    {
        kind_along(self.bytes, 84, d)
    }

    #[tactic(auto, unfolding(crate::specs::Frame::frame_of, crate::specs::Frame::content_of, crate::specs::Frame::pair_no, crate::specs::Frame::number_no, crate::specs::Frame::both_no))]
    pub fn scroll_delta(&self, d: Axis) -> f32
        ensures { result ≡ num self.now.content.scroll_delta (index_of d) }
    {
        kind_along(self.bytes, 86, d)
    }

    #[tactic(auto, unfolding(crate::specs::Frame::frame_of, crate::specs::Frame::content_of))]
    pub fn scroll_delta_animation(&self) -> ScrollAnimation
        ensures { result ≡ self.now.content.animation }
    {
        ScrollAnimation::at(self.bytes, 88)
    }

    #[tactic(auto, unfolding(crate::specs::Frame::frame_of, crate::specs::Frame::content_of))]
    pub fn target_request(&self, d: Axis) -> Option<ScrollTarget>
        ensures { result ≡ request_at self.now.content.targets (index_of d) }
    {
        words_along(self.bytes, 91, 98, d)
    }
}
