// The calls on one axis by itself. On a refusal out holds what was given, with the answer 0.
ghost use Rattle.std.specs.Prelude.{◌≡◌};
ghost use Rattle.numbers.specs.Table.{table_of};
ghost use Rattle.host.specs.Calls as Spec;

#[unsafe(no_mangle)]
pub extern "C" fn strakobud_drag(call: &[u8; 32], out: &mut [u8; 4]) -> u32
    ensures { record { refusal = result; out = out.new } ≡ Spec.drag_on call.now }
{
    refusals::number(&host::strakobud_drag(call, out))
}

#[unsafe(no_mangle)]
pub extern "C" fn strakobud_step(call: &[u8; 40], out: &mut [u8; 12]) -> u32
    ensures { record { refusal = result; out = out.new } ≡ Spec.step_on call.now }
{
    refusals::number(&host::strakobud_step(call, out))
}

#[unsafe(no_mangle)]
pub extern "C" fn strakobud_step_by(call: &[u8; 40], table: &[u8; 8200], out: &mut [u8; 12]) -> u32
    ensures { record { refusal = result; out = out.new } ≡ Spec.step_under (table_of table.now) call.now }
{
    refusals::number(&host::strakobud_step_by(call, table, out))
}

#[unsafe(no_mangle)]
pub extern "C" fn strakobud_wheel(call: &[u8; 52], out: &mut [u8; 16]) -> u32
    ensures answers { record { refusal = result; out = out.new } ≡ Spec.wheel_on call.now }
    ensures holds { result ≡ 0 → Spec.WheelOnHolds call.now out.new }
{
    refusals::number(&host::strakobud_wheel(call, out))
}
