// How a frame begins to move one axis: the host's explicit offset, then the hand on the content or the axis's own motion.
ghost use Rattle.std.specs.Prelude.{◌≡◌};
ghost use Rattle.numbers.specs.Axis.{index_of};
ghost use Rattle.numbers.specs.Table.{table_of};
ghost use Rattle.area.specs.Drive as Spec;

use crate::frame::FrameView;
use crate::prepared::{AxisBefore, AxisBegun, AxisMotion};
use crate::state::State;
use axis::AxisPhysics;
use numbers::{Axis, along, flag_as_number};

// What the hand does on one axis. It drags, or has just let go, only where there is a response to a drag of the background.
// Stays: flags beside numbers. The pointer's delta and velocity are there without them, as the Rust reads them.
#[derive(Clone, Copy, Debug, PartialEq)]
pub struct AxisInput {
    pub direction_enabled: bool,
    pub dragged: bool,
    pub drag_stopped: bool,
    pub pointer_delta: f32,
    pub pointer_velocity: f32,
    pub dt: f32,
    pub hold_overscroll: bool,
}

// One axis before drag or step: its motion, what moves it by itself, and what the hand does.
#[derive(Clone, Copy, Debug, PartialEq)]
pub struct AxisDrive {
    pub motion: AxisMotion,
    pub physics: AxisPhysics,
    pub input: AxisInput,
}

// The motion of axis d, from where the host puts it.
#[tactic(auto, unfolding(crate::specs::Drive::opened_of, crate::specs::Drive::given_offset_or))]
pub fn open_motion(frame: &FrameView, state: State, d: Axis) -> AxisMotion
    ensures { result ≡ Spec.opened_of frame.now.settings state (index_of d) }
{
    let stored = along(state.offset, d);
    AxisMotion {
        // The host's offset wins over the stored one.
        offset: frame.given_offset(d).unwrap_or(stored),
        vel: along(state.vel, d),
        offset_target: along(state.offset_target, d),
        scroll_stuck_to_end: along(state.scroll_stuck_to_end, d),
    }
}

// What else the last frame left on axis d.
#[tactic(auto, unfolding(crate::specs::Drive::before_of))]
pub fn before_of(state: State, d: Axis) -> AxisBefore
    ensures { result ≡ Spec.before_of state (index_of d) }
{
    AxisBefore {
        max_offset: along(state.max_offset, d),
        content_is_too_large: along(state.content_is_too_large, d),
        bounced_this_momentum: along(state.bounced_this_momentum, d),
        press: along(state.scroll_start_offset_from_top_left, d),
    }
}

impl AxisDrive {
    // The content goes with the hand; let alone, it coasts or springs back.
    #[tactic(auto, unfolding(crate::specs::Drive::driven_of))]
    pub fn drive(self, table: &[u8]) -> AxisBegun
        ensures { result ≡ Spec.driven_of (table_of table.now) self.motion self.physics self.input }
    {
        if self.input.dragged {
            self.drag()
        } else {
            self.step(table)
        }
    }

    // A drag ends a target under way and the sticking, but keeps the velocity.
    #[tactic(auto, unfolding(crate::specs::Drive::dragged_of))]
    fn drag(self) -> AxisBegun
        ensures { result ≡ Spec.dragged_of self.motion self.physics self.input }
    {
        let AxisDrive {
            motion,
            physics,
            input,
        } = self;
        if input.direction_enabled {
            // The offset grows as the pointer goes back.
            let offset = physics.drag(motion.offset, -input.pointer_delta);
            let rubber_banding = physics.is_rubber_banding(offset);
            return AxisBegun {
                motion: AxisMotion {
                    offset,
                    offset_target: None,
                    scroll_stuck_to_end: false,
                    ..motion
                },
                rubber_banding,
                repaint: false,
            };
        }
        AxisBegun {
            motion,
            rubber_banding: false,
            repaint: false,
        }
    }

    // Both axes step, also one that is not enabled.
    #[tactic(auto, unfolding(crate::specs::Drive::stepped_of))]
    fn step(self, table: &[u8]) -> AxisBegun
        ensures { result ≡ Spec.stepped_of (table_of table.now) self.motion self.physics self.input }
    {
        let AxisDrive {
            motion,
            physics,
            input,
        } = self;
        let vel = input.released(motion.vel);
        let stepped = physics.step_by(motion.offset, vel, input.dt, input.hold_overscroll, table);
        let rubber_banding = physics.is_rubber_banding(stepped.offset);
        AxisBegun {
            motion: AxisMotion {
                offset: stepped.offset,
                vel: stepped.vel,
                ..motion
            },
            rubber_banding,
            repaint: stepped.moving,
        }
    }
}

impl AxisInput {
    // Letting go throws the content with the pointer's speed; an axis that is not enabled stops.
    #[tactic(auto, unfolding(crate::specs::Drive::released_of))]
    fn released(self, vel: f32) -> f32
        ensures { result ≡ Spec.released_of self vel }
    {
        if self.drag_stopped {
            return -(flag_as_number(self.direction_enabled) * self.pointer_velocity);
        }
        vel
    }
}
