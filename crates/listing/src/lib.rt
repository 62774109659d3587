// What the programs' runs and listings have in common.
#![tactic(auto)]

mod answered;
mod answers;
mod digits;
mod place;
mod step;
mod turns;

pub use answered::{Answered, drag, wheel};
pub use answers::{Answer, Answers};
use area::FRAME;
pub use digits::{Bits, ByteWords, Flag, Word, Words};
use numbers::TABLE;
pub use place::Place;
pub use step::Step;
pub use turns::Turns;

/// The room for a table that a program reads: eight bytes more than one has, so that longer ones are tried too.
pub const TABLE_ROOM: usize = TABLE + 8;

/// The room for a frame that a program reads: eight bytes more than one has, likewise.
pub const FRAME_ROOM: usize = FRAME + 8;
