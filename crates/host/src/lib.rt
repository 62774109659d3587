// The library that a panel links: each call takes and gives bytes, and include/strakobud.h says which.
// Stays: a table as bytes of any length inside the calls, which have it of 8,200 or not at all: no bytes stand for T.
// Stays: the answer's record in each clause. It is the definition's value, and host_c's are these with the number for the Result.
// Stays: 156, 100 and 8,200 as numbers. include/strakobud.h and the clauses write them so.
#![tactic(auto)]

mod area_calls;
mod axis_calls;
mod check_calls;
mod drawer_calls;
mod settle_calls;
mod table_calls;

pub use area_calls::{
    strakobud_frame, strakobud_frame_by, strakobud_fresh, strakobud_offset, strakobud_reset,
};
pub use axis_calls::{strakobud_drag, strakobud_step, strakobud_step_by, strakobud_wheel};
pub use check_calls::strakobud_bad_word;
pub use drawer_calls::{
    strakobud_drawer_forget, strakobud_drawer_lay, strakobud_drawer_load, strakobud_drawer_save,
};
pub use settle_calls::{strakobud_settle, strakobud_settle_by};
pub use table_calls::{strakobud_table_load, strakobud_table_t};
