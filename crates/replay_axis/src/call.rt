// A call, as the bytes of its operands.
ghost use Rattle.std.specs.Prelude.{◌≡◌, ◌≤◌};
ghost use Rattle.axis.specs.Call.{drag_call_of, wheel_call_of};
ghost use Rattle.area.specs.Frame.{number_no, flag_no};
ghost use Rattle.area.specs.Parts.{axis_no, scroll_no};

use crate::line::Line;
use area::FromWords;
use axis::{AxisPhysics, WheelScroll, Wheeled};
use listing::{Answered, Step};
use std::alloc::Global;
use std::io::Read;
use streams::{NoRecord, Record, read_array};

// Each begins with its axis.
#[derive(Clone, Copy)]
pub enum Call {
    // Offset, delta.
    Drag([u8; 32]),
    Step([u8; 40]),
    // Offset, velocity, the wheel turn, bounced.
    Wheel([u8; 52]),
}

// Each is as long as a wheel turn, and read at once.
impl Record for Call {
    fn read<R: Read>(input: &mut R, _alloc: Global) -> Result<Self, NoRecord> {
        let stored: [u8; 56] = read_array(input)?;
        match words::word_in(&stored, 0) {
            1 => Ok(Call::Drag(operands_of(&stored))),
            2 => Ok(Call::Step(operands_of(&stored))),
            _ => Ok(Call::Wheel(operands_of(&stored))),
        }
    }
}

// What follows the call's word.
fn operands_of<const N: usize>(stored: &[u8; 56]) -> [u8; N]
    requires { N ≤ 52 }
{
    let mut operands = [0; N];
    operands.copy_from_slice(&stored[4..4 + N]);
    operands
}

impl Call {
    // By T: no bytes stand for it.
    pub fn line(self) -> Line {
        match self {
            Call::Drag(call) => {
                Line::Drag {
                    call,
                    answer: drag(&call),
                }
            }
            Call::Step(call) => Line::Step(Step::by(call, b"")),
            Call::Wheel(call) => {
                Line::Wheel {
                    call,
                    answer: wheel(&call),
                }
            }
        }
    }
}

fn drag(call: &[u8; 32]) -> Answered<f32>
    ensures { record { refusal = result.refusal; value = result.value } ≡ drag_call_of (axis_no call.now 1) (number_no call.now 7) (number_no call.now 8) }
{
    let (offset, delta) = (f32::at(call, 7), f32::at(call, 8));
    listing::drag(AxisPhysics::at(call, 1), offset, delta)
}

fn wheel(call: &[u8; 52]) -> Answered<Wheeled>
    ensures { record { refusal = result.refusal; value = result.value }
        ≡ wheel_call_of (axis_no call.now 1) (number_no call.now 7) (number_no call.now 8) (scroll_no call.now 9) (flag_no call.now 13) }
{
    let (offset, vel) = (f32::at(call, 7), f32::at(call, 8));
    let (axis, scroll) = (AxisPhysics::at(call, 1), WheelScroll::at(call, 9));
    listing::wheel(axis, offset, vel, scroll, bool::at(call, 13))
}
