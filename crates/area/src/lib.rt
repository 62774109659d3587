// A scroll area: its state, the frame that a host hands in, the checks on both, the frame call, and runs and lists of frames.
// Stays: state, bytes and table apart. They are the operands of one call and of its law, and a struct of them would be built for each call.
// Stays: a table as bytes of any length. Each public call takes every length, and one of another than 8,200 stands for T.
#![tactic(auto)]

mod adjust;
mod axis_physics;
mod bar;
mod begin;
mod call;
mod checks;
mod clock;
mod decode;
mod drive;
mod end;
mod extent;
mod fields;
mod final_clamp;
mod follow;
mod frame;
mod geometry;
mod handle;
mod lent;
mod marks;
mod moved;
mod outcome;
mod prepared;
mod press;
mod put_out;
mod replays;
mod settling_run;
mod space;
mod state;
mod stick;
mod sweep;
mod wheel_turn;

pub use call::{frame_by, frame_call};
pub use checks::{check_before_7, check_frame};
pub use clock::{put_time, reset, reset_lent};
pub use decode::{FromWords, OfWord, kind_at, word_at};
pub use fields::{
    BarResponse, Content, DragScroll, Frame, Host, ScrollAnimation, ScrollBarVisibility,
    ScrollTarget, Settings, Style,
};
pub use frame::{FRAME, FrameView};
pub use lent::{frame_lent, frame_lent_by};
pub use outcome::{Accepted, Outputs, state_after};
pub use replays::{Form, call_by, replay};
pub use settling_run::{SettlingRun, check_run, settle, settle_by, settle_frames};
pub use state::{ScrollingToTarget, State};
pub use sweep::{Swept, bad_word, sweep_words};
