// What an area remembers from frame to frame.
ghost use Rattle.std.specs.Prelude.{◌≡◌};
ghost use Rattle.area.specs.State as Spec;
ghost use Rattle.area.specs.Lists.{AllLists};

use axis::scroll_bounds;
use numbers::{Rect, Vec2};

// A scroll target: the time at which the motion starts and ends, and the offset to reach.
#[derive(Clone, Copy, Debug, PartialEq)]
pub struct ScrollingToTarget {
    pub start: f64,
    pub end: f64,
    pub target_offset: f32,
}

// Pairs are x, then y.
// Stays: arrays by axis, side by side. They are the Rust's own fields, and the record's words in their order.
#[derive(Clone, Copy, Debug, PartialEq)]
pub struct State {
    // Positive means scrolled down or right; outside the valid range while rubber-banding.
    pub offset: [f32; 2],
    // The largest valid offset as of the last frame; negative where the content was smaller than the viewport.
    pub max_offset: [f32; 2],
    pub offset_target: [Option<ScrollingToTarget>; 2],
    pub show_scroll: [bool; 2],
    pub content_is_too_large: [bool; 2],
    pub scroll_bar_interaction: [bool; 2],
    pub vel: [f32; 2],
    // Where on a bar's handle the press began, measured from the handle's start.
    pub scroll_start_offset_from_top_left: [Option<f32>; 2],
    // Set while the list stands on its end, and until somebody moves it.
    pub scroll_stuck_to_end: [bool; 2],
    pub interact_rect: Option<Rect>,
    pub bounced_this_momentum: [bool; 2],
    // Of the last accepted frame, 0 after a reset; an earlier one is refused.
    pub remembered_time: f64,
}

impl Default for State {
    // A fresh state: at the start, at rest, stuck to the end. Demand 3 holds of every list of calls that begins at it.
    #[tactic(auto, unfolding(crate::specs::State::default))]
    fn default() -> Self
        ensures starts { result ≡ Spec.default }
        ensures lists { AllLists result }
    {
        State {
            offset: [0.0; 2],
            max_offset: [0.0; 2],
            offset_target: [None; 2],
            show_scroll: [false; 2],
            content_is_too_large: [false; 2],
            scroll_bar_interaction: [false; 2],
            vel: [0.0; 2],
            scroll_start_offset_from_top_left: [None; 2],
            scroll_stuck_to_end: [true; 2],
            interact_rect: None,
            bounced_this_momentum: [false; 2],
            remembered_time: 0.0,
        }
    }
}

impl State {
    // How fast the offset moves, in points per second.
    pub fn velocity(self) -> Vec2
        ensures { result ≡ self.vel }
    {
        self.vel
    }

    // The offset inside the valid range.
    // Stays: x, then y, here and in overscroll. A map over both would take its pairs apart by a zip.
    #[tactic(auto, unfolding(crate::specs::State::clamped_offset))]
    pub fn clamped_offset(self) -> Vec2
        ensures { result ≡ Spec.clamped_offset self }
    {
        [
            clamped(self.offset[0], self.max_offset[0]),
            clamped(self.offset[1], self.max_offset[1]),
        ]
    }

    // The stored offset: past the edge too, while rubber-banding, where egui itself draws the content.
    pub fn unclamped_offset(self) -> Vec2
        ensures { result ≡ self.offset }
    {
        self.offset
    }

    // How far past the edge; negative before the start.
    #[tactic(auto, unfolding(crate::specs::State::overscroll))]
    pub fn overscroll(self) -> Vec2
        ensures { result ≡ Spec.overscroll self }
    {
        let clamped = self.clamped_offset();
        [self.offset[0] - clamped[0], self.offset[1] - clamped[1]]
    }

    // The shown offset.
    // Stays: beside clamped_offset. Both are the Rust's names.
    pub fn offset(self) -> Vec2
        ensures { result ≡ Spec.clamped_offset self }
    {
        self.clamped_offset()
    }
}

// The nearest valid offset.
#[tactic(auto, unfolding(crate::specs::State::clamped_to))]
pub fn clamped(offset: f32, max_offset: f32) -> f32
    ensures { result ≡ Spec.clamped_to offset max_offset }
{
    scroll_bounds(max_offset).clamp(offset)
}
