// A drag and a wheel turn as the programs show them: the refusal or 0, and the value, as it was given where the call is refused.
ghost use Rattle.std.specs.Prelude.{◌≡◌};
ghost use Rattle.axis.specs.Call.{drag_call_of, wheel_call_of};

use axis::{AxisPhysics, WheelScroll, Wheeled};
use refusals::number;

// Stays: the refusal as the number that a line shows, 0 for none. An Option would be turned into it where it is written, and nowhere else read.
#[derive(Clone, Copy, Debug)]
pub struct Answered<T> {
    pub refusal: u32,
    pub value: T,
}

pub fn drag(axis: AxisPhysics, offset: f32, delta: f32) -> Answered<f32>
    ensures { record { refusal = result.refusal; value = result.value } ≡ drag_call_of axis offset delta }
{
    let answer = axis::call::drag(axis, offset, delta);
    Answered {
        refusal: number(&answer),
        value: answer.unwrap_or(offset),
    }
}

// Stays: offset, vel and the bounce flag apart, as in AxisPhysics::wheel.
pub fn wheel(
    axis: AxisPhysics,
    offset: f32,
    vel: f32,
    scroll: WheelScroll,
    bounced_this_momentum: bool,
) -> Answered<Wheeled>
    ensures { record { refusal = result.refusal; value = result.value } ≡ wheel_call_of axis offset vel scroll bounced_this_momentum }
{
    let answer = axis::call::wheel(axis, offset, vel, scroll, bounced_this_momentum);
    let given = Wheeled {
        offset,
        vel,
        bounced_this_momentum,
        consumed: false,
    };
    Answered {
        refusal: number(&answer),
        value: answer.unwrap_or(given),
    }
}
