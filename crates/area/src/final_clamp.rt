// The end of a frame on one axis: the last clamp, and whether the list now stands on its end.
ghost use Rattle.std.specs.Prelude.{◌≡◌};
ghost use Rattle.area.specs.FinalClamp as Spec;

use crate::prepared::AxisMotion;
use crate::state::clamped;

#[derive(Clone, Copy, Debug, PartialEq)]
pub struct FinalClamp {
    pub offset: f32,
    pub scroll_stuck_to_end: bool,
}

// A rubber band keeps the offset past the edge; a target asked for in this frame keeps the list from counting as stuck.
#[tactic(auto, unfolding(crate::specs::FinalClamp::final_clamp_of, crate::specs::Geometry::has_target, crate::specs::Geometry::pick_of))]
pub fn final_clamp_axis(
    m: AxisMotion,
    rubber_banding: bool,
    max_offset: f32,
    stick_to_end: bool,
    had_explicit_scroll_adjustment: bool,
) -> FinalClamp
    ensures { result ≡ Spec.final_clamp_of m rubber_banding max_offset stick_to_end had_explicit_scroll_adjustment }
{
    let offset = if rubber_banding {
        m.offset
    } else {
        clamped(m.offset, max_offset)
    };
    let suppressed = had_explicit_scroll_adjustment & m.offset_target.is_some();
    FinalClamp {
        offset,
        scroll_stuck_to_end: !suppressed
            & ((offset == max_offset) | (stick_to_end & (max_offset < 0.0))),
    }
}
