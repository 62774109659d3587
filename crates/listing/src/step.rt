// A stored step of one axis, and what it answers.
ghost use Rattle.std.specs.Prelude.{◌≡◌, false, Some};
ghost use Rattle.numbers.specs.Table.{table_of};
ghost use Rattle.refusals.specs.Refusal.{answered};
ghost use Rattle.axis.specs.Call.{step_call_under};
ghost use Rattle.axis.specs.Step.{stepped};
ghost use Rattle.area.specs.Frame.{number_no, flag_no};
ghost use Rattle.area.specs.Parts.{axis_no};
ghost use Rattle.listing.specs.Step as Spec;

use crate::digits::{Bits, ByteWords, Flag};
use area::FromWords;
use axis::{AxisPhysics, Stepped};
use refusals::{Refusal, number};
use std::fmt;

/// A step's line: the words of the call, after "=" the refusal or 0, offset and velocity as words, and whether it moves as a digit.
// Stays: the refusal as the number that the line shows, 0 for none. An Option would be turned into it where it is written, and nowhere else read.
#[derive(Clone, Copy)]
pub struct Step {
    /// The axis, then offset, velocity, dt, hold.
    pub call: [u8; 40],
    pub refusal: u32,
    /// As it was given where the step is refused.
    pub stepped: Stepped,
}

impl Step {
    /// By a table that is lent; no bytes stand for T.
    pub fn by(call: [u8; 40], table: &[u8]) -> Self
        ensures call { result.call ≡ call }
        ensures answers { record { refusal = result.refusal; value = result.stepped }
            ≡ step_call_under (table_of table.now) (axis_no call 1) (number_no call 7) (number_no call 8) (number_no call 9) (flag_no call 10) }
    {
        let axis = AxisPhysics::at(&call, 1);
        let (offset, vel) = (f32::at(&call, 7), f32::at(&call, 8));
        let (dt, hold) = (f32::at(&call, 9), bool::at(&call, 10));
        let answer = stepped_by(axis, offset, vel, dt, hold, table);
        let given = Stepped {
            offset,
            vel,
            moving: false,
        };
        Step {
            call,
            refusal: number(&answer),
            stepped: answer.unwrap_or(given),
        }
    }
}

// A step by T is a call of its own.
// Stays: offset and vel apart, as in AxisPhysics::step.
#[tactic(auto, using(crate::proofs::TableLaws::of_none))]
fn stepped_by(
    axis: AxisPhysics,
    offset: f32,
    vel: f32,
    dt: f32,
    hold: bool,
    table: &[u8],
) -> Result<Stepped, Refusal>
    ensures { answered (stepped offset vel false) result ≡ step_call_under (table_of table.now) axis offset vel dt hold }
{
    if table.is_empty() {
        return axis::call::step(axis, offset, vel, dt, hold);
    }
    axis::call::step_by(axis, offset, vel, dt, hold, table)
}

impl fmt::Display for Step {
    ghost output = { λ step. Some (Spec.line_of step.call step.refusal step.stepped) };

    #[tactic(auto, unfolding(crate::specs::Step::line_of))]
    fn fmt<W: fmt::Write>(&self, f: &mut fmt::Formatter<W>) -> fmt::Result {
        let Step {
            call,
            refusal,
            stepped,
        } = self;
        let call = ByteWords(call);
        let (offset, vel) = (Bits(stepped.offset), Bits(stepped.vel));
        let moving = Flag(stepped.moving);
        write!(f, "step{call} = {refusal} {offset} {vel} {moving}")
    }
}
