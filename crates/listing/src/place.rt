// Where a scroll area stands.
ghost use Rattle.std.specs.Prelude.{◌≡◌, Some};
ghost use Rattle.listing.specs.Place as Spec;

use crate::digits::{Bits, Flag};
use area::State;
use std::fmt;

/// Of a state: offset x and y, velocity x and y, the stuck flags.
#[derive(Clone, Copy, Debug)]
pub struct Place {
    pub offset: [f32; 2],
    pub vel: [f32; 2],
    pub stuck: [bool; 2],
}

impl From<State> for Place {
    ghost from_gives = { λ state place. place ≡ record { offset = state.offset; vel = state.vel; stuck = state.scroll_stuck_to_end } };

    fn from(state: State) -> Self {
        let State {
            offset,
            vel,
            scroll_stuck_to_end: stuck,
            ..
        } = state;
        Place { offset, vel, stuck }
    }
}

// The numbers as the digits of their bits.
impl fmt::Display for Place {
    ghost output = { λ place. Some (Spec.place_of place.offset place.vel place.stuck) };

    #[tactic(auto, unfolding(crate::specs::Place::place_of))]
    fn fmt<W: fmt::Write>(&self, f: &mut fmt::Formatter<W>) -> fmt::Result {
        let [x, y] = self.offset.map(|number| Bits(number));
        let [vx, vy] = self.vel.map(|number| Bits(number));
        let [stuck_x, stuck_y] = self.stuck.map(|flag| Flag(flag));
        write!(f, "{x} {y} {vx} {vy} {stuck_x}{stuck_y}")
    }
}
