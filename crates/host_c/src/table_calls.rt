// The calls on a maker's table.
ghost use Rattle.std.specs.Prelude.{◌≡◌};
ghost use Rattle.numbers.specs.Table.{Served};
ghost use Rattle.host.specs.Table as Spec;

#[unsafe(no_mangle)]
pub extern "C" fn strakobud_table_load(bytes: &[u8], table: &mut [u8; 8200]) -> u32
    ensures answers { record { refusal = result; table = table.new } ≡ Spec.load_on bytes.now table.old }
    ensures serves { result ≡ 0 → Served table.new }
{
    refusals::number(&host::strakobud_table_load(bytes, table))
}

#[unsafe(no_mangle)]
pub extern "C" fn strakobud_table_t(table: &mut [u8; 8200])
    ensures answers { table.new ≡ Spec.table_bytes }
    ensures serves { Spec.ServesAsT table.new }
{
    host::strakobud_table_t(table);
}
