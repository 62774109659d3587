// A press on one axis's bar.
ghost use Rattle.std.specs.Prelude.{◌≡◌};
ghost use Rattle.numbers.specs.Axis.{index_of};
ghost use Rattle.numbers.specs.Shape.{along_of};
ghost use Rattle.area.specs.Press as Spec;

use crate::handle::{Track, handle_rect_of};
use crate::prepared::AxisMotion;
use numbers::{Axis, Pos2, Rangef, clamp, remap};

// One axis after the press on its bar, or after none.
#[derive(Clone, Copy, Debug, PartialEq)]
pub struct Pressed {
    pub motion: AxisMotion,
    pub press: Option<f32>,
    // Stays: a flag beside the motion. The stages after it compute on, as their definitions do; of an Err each would have two clauses.
    pub is_press_blocked: bool,
}

// What a pointer can take hold of: the bar of axis d, and the side of the handle on it.
#[derive(Clone, Copy, Debug, PartialEq)]
pub struct Grip {
    pub track: Track,
    pub handle: Rangef,
    pub d: Axis,
}

impl Grip {
    // Where the handle starts when it is at the bar's end.
    #[tactic(auto, unfolding(crate::specs::Press::handle_top_pos_at_bottom))]
    fn handle_top_pos_at_bottom(self) -> f32
        ensures { result ≡ Spec.handle_top_pos_at_bottom self.track self.handle }
    {
        self.track.bar.max - (self.handle.max - self.handle.min)
    }

    // The offset that puts the handle there; a handle with no way to go stands for 0.
    #[tactic(auto, unfolding(crate::specs::Press::offset_of))]
    fn offset_at(self, new_handle_top: f32) -> f32
        ensures { result ≡ Spec.offset_of self.track self.handle new_handle_top }
    {
        let travel_start = self.track.bar.min;
        let travel_end = self.handle_top_pos_at_bottom();
        if travel_start == travel_end {
            return 0.0;
        }
        remap(
            new_handle_top,
            travel_start,
            travel_end,
            0.0,
            self.track.max_offset,
        )
    }
}

// The pointer on a grip, and where the press began if an earlier frame had it.
#[derive(Clone, Copy, Debug, PartialEq)]
struct Press {
    grip: Grip,
    stored: Option<f32>,
    pointer_pos: Pos2,
}

impl Press {
    fn pointer(self) -> f32
        ensures { result ≡ along_of self.pointer_pos (index_of self.grip.d) }
    {
        self.pointer_pos.along(self.grip.d)
    }

    // In both dimensions, both ends included; the clip plays no part.
    #[tactic(auto, unfolding(crate::specs::Press::is_on_handle))]
    fn is_on_handle(self) -> bool
        ensures { result ≡ Spec.is_on_handle self.grip.track self.grip.handle self.pointer_pos (index_of self.grip.d) }
    {
        let Grip { track, handle, d } = self.grip;
        handle_rect_of(handle, track.cross, d).contains(self.pointer_pos)
    }

    // A press on the handle holds it where it is; a press beside it brings the handle's middle under the pointer.
    #[tactic(auto, unfolding(crate::specs::Press::new_start_offset))]
    fn new_start_offset(self) -> f32
        ensures { result ≡ Spec.new_start_offset self.grip.track self.grip.handle self.pointer_pos (index_of self.grip.d) }
    {
        let Grip {
            track,
            handle,
            d: _,
        } = self.grip;
        let pointer = self.pointer();
        if self.is_on_handle() {
            return pointer - handle.min;
        }
        let top = pointer - (handle.max - handle.min) * 0.5;
        let new_handle_top_pos = clamp(top, track.bar.min, self.grip.handle_top_pos_at_bottom());
        pointer - new_handle_top_pos
    }

    // A press goes on as it began.
    #[tactic(auto, unfolding(crate::specs::Press::start_offset_of))]
    fn start_offset(self) -> f32
        ensures { result ≡ Spec.start_offset_of self.stored self.grip.track self.grip.handle self.pointer_pos (index_of self.grip.d) }
    {
        match self.stored {
            None => self.new_start_offset(),
            Some(start_offset) => start_offset,
        }
    }

    // Check 7: a new press beside a handle that is longer than its bar, where the Rust's clamp panics.
    #[tactic(auto, unfolding(crate::specs::Press::is_blocked))]
    fn is_blocked(self) -> bool
        ensures { result ≡ Spec.is_blocked self.stored self.grip.track self.grip.handle self.pointer_pos (index_of self.grip.d) }
    {
        let grip = self.grip;
        match self.stored {
            None => !self.is_on_handle() & !(grip.track.bar.min <= grip.handle_top_pos_at_bottom()),
            Some(_) => false,
        }
    }

    // The handle follows the pointer: no longer stuck, no target under way.
    #[tactic(auto, unfolding(crate::specs::Press::press_at))]
    fn apply(self, m: AxisMotion) -> Pressed
        ensures { result ≡ Spec.press_at m self.grip.track self.grip.handle self.stored self.pointer_pos (index_of self.grip.d) }
    {
        let start_offset = self.start_offset();
        Pressed {
            motion: AxisMotion {
                offset: self.grip.offset_at(self.pointer() - start_offset),
                offset_target: None,
                scroll_stuck_to_end: false,
                ..m
            },
            press: Some(start_offset),
            is_press_blocked: self.is_blocked(),
        }
    }
}

// Where nothing is pressed, no press stays stored.
#[tactic(auto, unfolding(crate::specs::Press::press_of))]
pub fn press_axis(m: AxisMotion, grip: Grip, stored: Option<f32>, press: Option<Pos2>) -> Pressed
    ensures { result ≡ Spec.press_of m grip.track grip.handle stored press (index_of grip.d) }
{
    match press {
        None => Pressed {
            motion: m,
            press: None,
            is_press_blocked: false,
        },
        Some(pointer_pos) => {
            let press = Press {
                grip,
                stored,
                pointer_pos,
            };
            press.apply(m)
        }
    }
}
