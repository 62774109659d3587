// The settling run on a record.
ghost use Rattle.std.specs.Prelude.{◌≡◌};
ghost use Rattle.refusals.specs.Refusal.{number_in};
ghost use Rattle.numbers.specs.Table.{table_of};
ghost use Rattle.host.specs.SettlingRun as Spec;

use crate::area_calls::damaged_refusal;
use area::{FromWords, word_at};
use records::{is_damaged, put_state, state_of};
use refusals::Refusal;

// By table T.
// Stays: C has a call without a table beside the one with it.
#[tactic(auto, unfolding(numbers::specs::Table::table_of))]
pub fn strakobud_settle(
    state: &mut [u8; 156],
    frame: &[u8],
    run: &[u8; 12],
    used: &mut [u8; 4],
) -> Result<(), Refusal>
    ensures { record { refusal = number_in result; state = state.new; used = used.new }
        ≡ Spec.settle_on state.old frame.now run.now used.old }
{
    settle_under(state, frame, &[], run, used)
}

pub fn strakobud_settle_by(
    state: &mut [u8; 156],
    frame: &[u8],
    table: &[u8; 8200],
    run: &[u8; 12],
    used: &mut [u8; 4],
) -> Result<(), Refusal>
    ensures { record { refusal = number_in result; state = state.new; used = used.new }
        ≡ Spec.settle_under (table_of table.now) state.old frame.now run.now used.old }
{
    settle_under(state, frame, table, run, used)
}

// By the table that the bytes stand for. Up front the lowest of 1 to 6 that applies to the frame and the record as given, then 9.
#[tactic(auto, using(refusals::proofs::Refused::not_0, records::proofs::PartLaws::put_all), unfolding(crate::specs::SettlingRun::settle_under, crate::specs::SettlingRun::up_front_on, crate::specs::SettlingRun::ran_under, crate::specs::SettlingRun::increment_of, crate::specs::SettlingRun::limit_of))]
fn settle_under(
    state: &mut [u8; 156],
    frame: &[u8],
    table: &[u8],
    run: &[u8; 12],
    used: &mut [u8; 4],
) -> Result<(), Refusal>
    ensures { record { refusal = number_in result; state = state.new; used = used.new }
        ≡ Spec.settle_under (table_of table.now) state.old frame.now run.now used.old }
{
    if is_damaged(state, 0) {
        return Err(damaged_refusal(frame));
    }
    let begun = state_of(state);
    let increment = f64::at(run, 1);
    let limit = word_at(run, 3);
    let frame = area::check_run(begun, frame, increment, limit)?;
    let settled = area::settle_frames(begun, frame, increment, limit, table);
    words::put(used, 0, &[settled.used]);
    if 0 < settled.used {
        put_state(state, settled.state);
    }
    settled.ended
}
