// The calls on a maker's table.
ghost use Rattle.std.specs.Prelude.{◌≡◌, OnOk};
ghost use Rattle.refusals.specs.Refusal.{number_in};
ghost use Rattle.numbers.specs.Table.{Served};
ghost use Rattle.host.specs.Table as Spec;

use refusals::Refusal;

// Checks the bytes, and copies them where they load.
#[tactic(auto, using(refusals::proofs::Refused::not_0), unfolding(crate::specs::Table::load_on))]
pub fn strakobud_table_load(bytes: &[u8], table: &mut [u8; 8200]) -> Result<(), Refusal>
    ensures answers { record { refusal = number_in result; table = table.new } ≡ Spec.load_on bytes.now table.old }
    ensures serves { OnOk result (Served table.new) }
{
    numbers::check_table(bytes)?;
    table.copy_from_slice(bytes);
    Ok(())
}

// T itself, by its recurrence.
pub fn strakobud_table_t(table: &mut [u8; 8200])
    ensures answers { table.new ≡ Spec.table_bytes }
    ensures serves { Spec.ServesAsT table.new }
{
    let mut entry: u64 = 1 << 40;
    // Stays: by the entry's number, as the definition and the loop's invariant count.
    for k in 0..1025 {
        words::put(table, 2 * k, &words::long_words(entry));
        entry = entry * 48769 / 49537;
    }
}
