// A turn that was run.
use crate::grid::Turn;
use crate::places::Place;
use axis::{AxisPhysics, KineticScrollStyle, WheelScroll};
use listing::Answered;
use numbers::{Ieee, Rangef};

#[derive(Clone, Copy)]
pub struct Ran {
    pub turn: Turn,
    // Stays: refused beside the rest. A refused turn leaves what was given, and counts in its row as not taken.
    pub refused: bool,
    pub taken: bool,
    pub bounced: bool,
    pub offset_as_given: bool,
    pub offset_inside: bool,
    pub velocity_as_given: bool,
}

impl Turn {
    pub fn run(self) -> Ran {
        let Place { offset, delta, .. } = self.place;
        let scroll = WheelScroll {
            delta,
            source: self.source,
            can_chain_to_parent: self.parent,
            dt: self.dt,
        };
        let axis = axis_of(self.rubber_band);
        let Answered {
            refusal,
            value: wheeled,
        } = listing::wheel(axis, offset, self.vel, scroll, self.bounced);
        Ran {
            turn: self,
            refused: refusal != 0,
            taken: wheeled.consumed,
            bounced: wheeled.bounced_this_momentum,
            offset_as_given: is_same(wheeled.offset, offset),
            offset_inside: axis.bounds.contains(wheeled.offset),
            velocity_as_given: is_same(wheeled.vel, self.vel),
        }
    }
}

fn axis_of(rubber_band: bool) -> AxisPhysics {
    AxisPhysics {
        bounds: Rangef {
            min: 0.0,
            max: 300.0,
        },
        viewport_extent: 100.0,
        style: KineticScrollStyle {
            decay_time: 1.0,
            stop_distance: 1.0,
            rubber_band,
        },
    }
}

// Stays: bit for bit and not ==. 0 and -0 are two.
fn is_same(x: f32, y: f32) -> bool {
    x.bits() == y.bits()
}
