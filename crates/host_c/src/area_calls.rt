// The calls on a state.
ghost use Rattle.std.specs.Prelude.{◌≡◌};
ghost use Rattle.numbers.specs.Table.{table_of};
ghost use Rattle.area.specs.Clock.{reset_of};
ghost use Rattle.records.specs.Record.{state_of};
ghost use Rattle.host.specs.Calls as Spec;
ghost use Rattle.host.specs.Lists.{AllRecordLists, ResetOnSays};

#[unsafe(no_mangle)]
pub extern "C" fn strakobud_fresh(state: &mut [u8; 156])
    ensures starts { state.new ≡ Spec.fresh_bytes }
    ensures lists { AllRecordLists state.new }
{
    host::strakobud_fresh(state);
}

#[unsafe(no_mangle)]
pub extern "C" fn strakobud_reset(state: &mut [u8; 156])
    ensures clears { ResetOnSays state.old state.new }
    ensures stands { state_of state.new ≡ reset_of (state_of state.old) }
{
    host::strakobud_reset(state);
}

#[unsafe(no_mangle)]
pub extern "C" fn strakobud_frame(state: &mut [u8; 156], frame: &[u8], out: &mut [u8; 100]) -> u32
    ensures { record { refusal = result; state = state.new; out = out.new }
        ≡ Spec.frame_on state.old frame.now out.old }
{
    refusals::number(&host::strakobud_frame(state, frame, out))
}

#[unsafe(no_mangle)]
pub extern "C" fn strakobud_frame_by(
    state: &mut [u8; 156],
    frame: &[u8],
    table: &[u8; 8200],
    out: &mut [u8; 100],
) -> u32
    ensures { record { refusal = result; state = state.new; out = out.new }
        ≡ Spec.frame_under (table_of table.now) state.old frame.now out.old }
{
    refusals::number(&host::strakobud_frame_by(state, frame, table, out))
}

#[unsafe(no_mangle)]
pub extern "C" fn strakobud_offset(state: &[u8; 156], out: &mut [u8; 8]) -> u32
    ensures { record { refusal = result; out = out.new } ≡ Spec.offset_on state.now out.old }
{
    refusals::number(&host::strakobud_offset(state, out))
}
