// Staying on the last entry.
ghost use Rattle.std.specs.Prelude.{◌≡◌};
ghost use Rattle.area.specs.Stick as Spec;

use crate::prepared::AxisMotion;

// A list that stood on its end follows it, unless the content asked for another place in this frame.
#[tactic(auto, unfolding(crate::specs::Stick::stick_of))]
pub fn stick_axis(
    m: AxisMotion,
    stick_to_end: bool,
    had_explicit_scroll_adjustment: bool,
    max_offset: f32,
) -> AxisMotion
    ensures { result ≡ Spec.stick_of m stick_to_end had_explicit_scroll_adjustment max_offset }
{
    let sticks = stick_to_end & m.scroll_stuck_to_end & !had_explicit_scroll_adjustment;
    if sticks {
        return AxisMotion {
            offset: max_offset,
            ..m
        };
    }
    m
}
