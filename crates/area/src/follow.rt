// A scroll target under way. Nothing else moves the axis then: its velocity is gone.
ghost use Rattle.std.specs.Prelude.{◌≡◌};
ghost use Rattle.area.specs.Follow as Spec;

use crate::prepared::{AxisBegun, AxisMotion};
use crate::state::ScrollingToTarget;
use numbers::{abs, interpolation_factor, lerp};

// One frame further towards the target, if a drag has not ended it.
#[tactic(auto, unfolding(crate::specs::Follow::followed_of))]
pub fn follow(begun: AxisBegun, time: f64, dt: f32) -> AxisBegun
    ensures { result ≡ Spec.followed_of begun time dt }
{
    match begun.motion.offset_target {
        None => begun,
        Some(t) => approach(begun, t, time, dt),
    }
}

// Less than 1 from the target it snaps there, at any time.
#[tactic(auto, unfolding(crate::specs::Follow::approach_of, crate::specs::Follow::moved_towards))]
fn approach(begun: AxisBegun, t: ScrollingToTarget, time: f64, dt: f32) -> AxisBegun
    ensures { result ≡ Spec.approach_of begun t time dt }
{
    let distance = abs(begun.motion.offset - t.target_offset);
    if distance < 1.0 {
        return arrive(begun, t);
    }
    let factor = interpolation_factor(t.start, t.end, time, dt);
    // The target stays stored until its time is over.
    if factor < 1.0 {
        let offset = lerp(begun.motion.offset, t.target_offset, factor);
        return AxisBegun {
            motion: AxisMotion {
                offset,
                vel: 0.0,
                offset_target: Some(t),
                ..begun.motion
            },
            repaint: true,
            ..begun
        };
    }
    arrive(begun, t)
}

// On the target, which is over.
fn arrive(begun: AxisBegun, t: ScrollingToTarget) -> AxisBegun
    ensures { result ≡ Spec.arrived begun t }
{
    AxisBegun {
        motion: AxisMotion {
            offset: t.target_offset,
            vel: 0.0,
            offset_target: None,
            ..begun.motion
        },
        ..begun
    }
}
