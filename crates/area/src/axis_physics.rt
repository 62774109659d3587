// The axis struct of a frame. It is built twice: from last frame's bounds in `begin`, from this frame's for the wheel.
ghost use Rattle.std.specs.Prelude.{◌≡◌};
ghost use Rattle.area.specs.AxisPhysics as Spec;

use axis::{AxisPhysics, KineticScrollStyle, scroll_bounds};

// A rubber band only along an axis that has something to scroll.
#[tactic(auto, unfolding(crate::specs::AxisPhysics::physics_of))]
pub fn physics_of(
    kinetic: KineticScrollStyle,
    direction_enabled: bool,
    content_is_too_large: bool,
    max_offset: f32,
    viewport_extent: f32,
) -> AxisPhysics
    ensures { result ≡ Spec.physics_of kinetic direction_enabled content_is_too_large max_offset viewport_extent }
{
    AxisPhysics {
        bounds: scroll_bounds(max_offset),
        viewport_extent,
        style: KineticScrollStyle {
            decay_time: kinetic.decay_time,
            stop_distance: kinetic.stop_distance,
            rubber_band: kinetic.rubber_band & direction_enabled & content_is_too_large,
        },
    }
}
