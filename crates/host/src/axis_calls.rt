// The calls on one axis by itself. On a refusal out holds what was given, with the answer 0.
ghost use Rattle.std.specs.Prelude.{◌≡◌, ◌*◌, [], ◌∷◌, length, IfOk, OnOk};
ghost use Rattle.words.specs.Words.{bytes_of};
ghost use Rattle.refusals.specs.Refusal.{number_in};
ghost use Rattle.numbers.specs.Table.{table_of};
ghost use Rattle.area.specs.Frame.{word_no};
ghost use Rattle.host.specs.Calls as Spec;

use area::{FromWords, word_at};
use axis::{AxisPhysics, WheelScroll};
use numbers::Ieee;
use records::is_no_flag;
use refusals::Refusal;

// Into out go the words of an answer, or on a refusal what was given.
#[tactic(auto, using(records::proofs::PartLaws::put_all))]
fn put_answer<const N: usize>(
    out: &mut [u8],
    given: &[u32; N],
    answer: &Result<[u32; N], Refusal>,
) -> Result<(), Refusal>
    requires { length out.old ≡ 4 * N }
    ensures answers { record { refusal = number_in result; out = out.new } ≡ Spec.words_left given.now answer.now }
    ensures holds { OnOk result (IfOk answer.now (λ words. out.new ≡ bytes_of words)) }
{
    match answer {
        Ok(words) => {
            words::put(out, 0, words);
            Ok(())
        }
        Err(refusal) => {
            words::put(out, 0, given);
            Err(*refusal)
        }
    }
}

pub fn strakobud_drag(call: &[u8; 32], out: &mut [u8; 4]) -> Result<(), Refusal>
    ensures { record { refusal = number_in result; out = out.new } ≡ Spec.drag_on call.now }
{
    put_answer(out, &[word_at(call, 7)], &dragged(call))
}

#[tactic(auto, using(refusals::proofs::Refused::not_0), unfolding(crate::specs::Calls::drag_on))]
fn dragged(call: &[u8; 32]) -> Result<[u32; 1], Refusal>
    ensures { Spec.words_left (word_no call.now 7 ∷ []) result ≡ Spec.drag_on call.now }
{
    if is_no_flag(word_at(call, 6)) {
        return Err(Refusal::FlagOrKind);
    }
    let offset = axis::call::drag(AxisPhysics::at(call, 1), f32::at(call, 7), f32::at(call, 8))?;
    Ok([offset.bits()])
}

// By table T.
// Stays: C has a call without a table beside the one with it.
#[tactic(auto, unfolding(numbers::specs::Table::table_of))]
pub fn strakobud_step(call: &[u8; 40], out: &mut [u8; 12]) -> Result<(), Refusal>
    ensures { record { refusal = number_in result; out = out.new } ≡ Spec.step_on call.now }
{
    step_under(call, &[], out)
}

pub fn strakobud_step_by(
    call: &[u8; 40],
    table: &[u8; 8200],
    out: &mut [u8; 12],
) -> Result<(), Refusal>
    ensures { record { refusal = number_in result; out = out.new } ≡ Spec.step_under (table_of table.now) call.now }
{
    step_under(call, table, out)
}

// By the table that the bytes stand for.
fn step_under(call: &[u8; 40], table: &[u8], out: &mut [u8; 12]) -> Result<(), Refusal>
    ensures { record { refusal = number_in result; out = out.new } ≡ Spec.step_under (table_of table.now) call.now }
{
    put_answer(
        out,
        &[word_at(call, 7), word_at(call, 8), 0],
        &stepped(call, table),
    )
}

#[tactic(auto, using(refusals::proofs::Refused::not_0), unfolding(crate::specs::Calls::step_under))]
fn stepped(call: &[u8; 40], table: &[u8]) -> Result<[u32; 3], Refusal>
    ensures { Spec.words_left (word_no call.now 7 ∷ word_no call.now 8 ∷ 0 ∷ []) result ≡ Spec.step_under (table_of table.now) call.now }
{
    if is_no_flag(word_at(call, 6)) | is_no_flag(word_at(call, 10)) {
        return Err(Refusal::FlagOrKind);
    }
    let stepped = axis::call::step_by(
        AxisPhysics::at(call, 1),
        f32::at(call, 7),
        f32::at(call, 8),
        f32::at(call, 9),
        bool::at(call, 10),
        table,
    )?;
    Ok([
        stepped.offset.bits(),
        stepped.vel.bits(),
        u32::from(stepped.moving),
    ])
}

pub fn strakobud_wheel(call: &[u8; 52], out: &mut [u8; 16]) -> Result<(), Refusal>
    ensures answers { record { refusal = number_in result; out = out.new } ≡ Spec.wheel_on call.now }
    ensures holds { OnOk result (Spec.WheelOnHolds call.now out.new) }
{
    put_answer(
        out,
        &[word_at(call, 7), word_at(call, 8), word_at(call, 13), 0],
        &wheeled(call),
    )
}

#[tactic(auto, using(refusals::proofs::Refused::not_0), unfolding(crate::specs::Calls::wheel_on))]
fn wheeled(call: &[u8; 52]) -> Result<[u32; 4], Refusal>
    ensures answers { Spec.words_left (word_no call.now 7 ∷ word_no call.now 8 ∷ word_no call.now 13 ∷ 0 ∷ []) result ≡ Spec.wheel_on call.now }
    ensures holds { IfOk result (λ words. Spec.WheelOnHolds call.now (bytes_of words)) }
{
    if is_wheel_outside(call) {
        return Err(Refusal::FlagOrKind);
    }
    let wheeled = axis::call::wheel(
        AxisPhysics::at(call, 1),
        f32::at(call, 7),
        f32::at(call, 8),
        WheelScroll::at(call, 9),
        bool::at(call, 13),
    )?;
    Ok([
        wheeled.offset.bits(),
        wheeled.vel.bits(),
        u32::from(wheeled.bounced_this_momentum),
        u32::from(wheeled.consumed),
    ])
}

// A flag or the kind of a wheel call outside its values.
fn is_wheel_outside(call: &[u8; 52]) -> bool
    ensures { result ≡ Spec.is_wheel_outside call.now }
{
    is_no_flag(word_at(call, 6))
        | (4 < word_at(call, 10))
        | is_no_flag(word_at(call, 11))
        | is_no_flag(word_at(call, 13))
}
