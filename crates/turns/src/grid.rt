// The grid of turns: every place with every source, rubber band off and on, parent no and yes, bounced no and yes, two velocities and two dt.
use crate::found::Found;
use crate::places::{DELTAS, OFFSETS, Place};
use axis::WheelSource;

const SOURCES: [Option<WheelSource>; 5] = [
    None,
    Some(WheelSource::Unknown),
    Some(WheelSource::Wheel),
    Some(WheelSource::Trackpad),
    Some(WheelSource::Momentum),
];

const BOTH: [bool; 2] = [false, true];

#[derive(Clone, Copy)]
pub struct Turn {
    pub place: Place,
    pub source: Option<WheelSource>,
    pub rubber_band: bool,
    // Whether an enclosing scroll area could take the turn instead.
    pub parent: bool,
    pub bounced: bool,
    pub vel: f32,
    pub dt: f32,
}

// Runs every turn.
pub fn run_grid() -> Found {
    let mut found = Found::default();
    for offset in OFFSETS {
        for delta in DELTAS {
            for source in SOURCES {
                run_turns(&mut found, Place::new(offset, delta), source);
            }
        }
    }
    found
}

fn run_turns(found: &mut Found, place: Place, source: Option<WheelSource>) {
    for rubber_band in BOTH {
        for parent in BOTH {
            for bounced in BOTH {
                for vel in [-0.0, 40.0] {
                    for dt in [0.0, 0.015625] {
                        let turn = Turn {
                            place,
                            source,
                            rubber_band,
                            parent,
                            bounced,
                            vel,
                            dt,
                        };
                        found.add(turn.run());
                    }
                }
            }
        }
    }
}
