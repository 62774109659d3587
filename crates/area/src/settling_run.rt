// The settling run: frames until the list rests.
ghost use Rattle.std.specs.Prelude.{◌≡◌, IfOk};
ghost use Rattle.refusals.specs.Refusal.{number_in};
ghost use Rattle.numbers.specs.Table.{table_at, table_of};
ghost use Rattle.area.specs.SettlingRun as Spec;
ghost use Rattle.area.specs.Lists.{SettleSays};

use crate::call::frame_by;
use crate::checks::check;
use crate::clock::put_time;
use crate::frame::{FRAME, FrameView};
use crate::moved::is_moved_by_words;
use crate::state::State;
use numbers::Axis;
use refusals::{Refusal, refuse};

// How it ended, at rest or the limit or by a refusal; the frames used, and the state after them.
#[derive(Clone, Copy, Debug, PartialEq)]
pub struct SettlingRun {
    pub ended: Result<(), Refusal>,
    pub used: u32,
    pub state: State,
}

// By table T; otherwise as settle_by.
// Stays: beside settle_by. It is public and goes on promising T, and a caller with no table names none.
// Stays: increment and limit apart, as in the public calls and in the clauses of all that they call.
#[tactic(auto, unfolding(numbers::specs::Table::table_of))]
pub fn settle(state: State, bytes: &[u8], increment: f64, limit: u32) -> SettlingRun
    ensures answers { SettleSays table_at state bytes.now increment limit (Spec.settled_in result) }
    ensures holds { Spec.RunHolds table_at state bytes.now increment limit (Spec.settled_in result) }
{
    settle_by(state, bytes, increment, limit, &[])
}

// Frame after frame, the time moved on by the increment after each, up to the first that wants no repaint, the limit, or a
// frame that is refused.
pub fn settle_by(
    state: State,
    bytes: &[u8],
    increment: f64,
    limit: u32,
    table: &[u8],
) -> SettlingRun
    ensures answers { SettleSays (table_of table.now) state bytes.now increment limit (Spec.settled_in result) }
    ensures holds { Spec.RunHolds (table_of table.now) state bytes.now increment limit (Spec.settled_in result) }
{
    run(state, bytes, increment, limit, table)
}

// The checks, then the frames.
// Stays: apart from settle_by. Its clause is the one that RunHolds is shown from.
#[tactic(auto, using(refusals::proofs::Refused::not_0), unfolding(crate::specs::SettlingRun::settle_under))]
fn run(state: State, bytes: &[u8], increment: f64, limit: u32, table: &[u8]) -> SettlingRun
    ensures { SettleSays (table_of table.now) state bytes.now increment limit (Spec.settled_in result) }
{
    match check_run(state, bytes, increment, limit) {
        Ok(frame) => settle_frames(state, frame, increment, limit, table),
        Err(refusal) => SettlingRun {
            ended: Err(refusal),
            used: 0,
            state,
        },
    }
}

// The frame's bytes, unless one of 1 to 6 applies to it and the state as given, and then 9.
#[tactic(auto, using(refusals::proofs::Refused::not_0), unfolding(crate::specs::SettlingRun::settle_refusal))]
pub fn check_run<'a>(
    state: State,
    bytes: &'a [u8],
    increment: f64,
    limit: u32,
) -> Result<&'a [u8; FRAME], Refusal>
    ensures refuses { number_in result ≡ Spec.settle_refusal state bytes.now increment limit }
    ensures keeps { IfOk result (λ frame. frame.now ≡ bytes.now) }
{
    let frame = check(bytes, state)?;
    check_unmoved(frame, increment, limit)?;
    Ok(frame)
}

// Check 9.
// Stays: x and y in one test. It is plainer than an any over the axes.
#[tactic(auto, unfolding(crate::specs::SettlingRun::run_refusal))]
fn check_unmoved(frame: &[u8; FRAME], increment: f64, limit: u32) -> Result<(), Refusal>
    ensures { number_in result ≡ Spec.run_refusal frame.now increment limit }
{
    let bad_limit = (limit == 0) | (10000 < limit);
    let bad_increment = !((0.0 <= increment) & (increment <= 1.0));
    let is_moved = is_moved_by_words(frame, Axis::X) | is_moved_by_words(frame, Axis::Y);
    refuse(bad_limit | bad_increment | is_moved, Refusal::Run)
}

// The frames of a run that nothing turned back.
pub fn settle_frames(
    state: State,
    bytes: &[u8; FRAME],
    increment: f64,
    limit: u32,
    table: &[u8],
) -> SettlingRun
    ensures { Spec.settled_in result ≡ Spec.settle_from (table_of table.now) increment limit state bytes.now }
{
    let mut frame = *bytes;
    let mut state = state;
    for used in 0..limit {
        match frame_by(state, &frame, table) {
            Ok(accepted) => {
                state = accepted.state;
                if !accepted.outputs.repaint {
                    return SettlingRun {
                        ended: Ok(()),
                        used: used + 1,
                        state,
                    };
                }
            }
            Err(refusal) => {
                return SettlingRun {
                    ended: Err(refusal),
                    used,
                    state,
                };
            }
        }
        advance(&mut frame, increment);
    }
    SettlingRun {
        ended: Ok(()),
        used: limit,
        state,
    }
}

// Moves the time on.
#[tactic(auto, unfolding(crate::specs::SettlingRun::advanced, crate::specs::Frame::frame_of, crate::specs::Frame::host_of))]
fn advance(frame: &mut [u8; FRAME], increment: f64)
    ensures { frame.new ≡ Spec.advanced increment frame.old }
{
    let next = FrameView::new(frame).time() + increment;
    put_time(frame, 51, next);
}
