// A state's record, the one definition that the host library and the drawer use; and the words of what a frame puts out.
#![tactic(auto)]

mod read;
mod tidying;
mod write;

pub use read::{STATE, is_damaged, is_no_flag, state_of};
pub use tidying::tidied;
pub use write::{OUTPUTS, ToWords, put_outcome, put_pair, put_state};
