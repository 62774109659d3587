// The settling run on a record.
ghost use Rattle.std.specs.Prelude.{◌≡◌};
ghost use Rattle.numbers.specs.Table.{table_of};
ghost use Rattle.host.specs.SettlingRun as Spec;

#[unsafe(no_mangle)]
pub extern "C" fn strakobud_settle(
    state: &mut [u8; 156],
    frame: &[u8],
    run: &[u8; 12],
    used: &mut [u8; 4],
) -> u32
    ensures { record { refusal = result; state = state.new; used = used.new }
        ≡ Spec.settle_on state.old frame.now run.now used.old }
{
    refusals::number(&host::strakobud_settle(state, frame, run, used))
}

#[unsafe(no_mangle)]
pub extern "C" fn strakobud_settle_by(
    state: &mut [u8; 156],
    frame: &[u8],
    table: &[u8; 8200],
    run: &[u8; 12],
    used: &mut [u8; 4],
) -> u32
    ensures { record { refusal = result; state = state.new; used = used.new }
        ≡ Spec.settle_under (table_of table.now) state.old frame.now run.now used.old }
{
    refusals::number(&host::strakobud_settle_by(state, frame, table, run, used))
}
