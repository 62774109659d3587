// A fresh drawer.
ghost use Rattle.std.specs.Prelude.{◌≡◌, true, ◌+◌, ◌*◌, ◌<◌, ◌≤◌, length, OnOk};
ghost use Rattle.words.specs.Words.{bytes_of, put_at};
ghost use Rattle.refusals.specs.Refusal.{number_in};
ghost use Rattle.drawer.specs.Drawer.{is_drawer};
ghost use Rattle.drawer.specs.Calls.{width, lay_on, first_words, free_words, next_free, fresh_to};
ghost use Rattle.drawer.specs.Lists.{AllDrawerLists, AllAscend};

use crate::check::RECORD_WORDS;
use crate::layout::{FREE, LENGTH, count_of};
use refusals::Refusal;

/// Lays out a fresh drawer, with every record free. Reads only the buffer's length: 13 for one that is no whole number of records.
#[tactic(auto, unfolding(crate::specs::Calls::lay_on))]
pub fn lay(drawer: &mut [u8]) -> Result<(), Refusal>
    ensures answers { record { refusal = number_in result; drawer = drawer.new } ≡ lay_on drawer.old }
    ensures kept { OnOk result (is_drawer width drawer.new ≡ true) }
    ensures lists { OnOk result (AllDrawerLists drawer.new) }
    ensures order { OnOk result (AllAscend drawer.new) }
{
    let count = count_of::<RECORD_WORDS>(drawer.len()).ok_or(Refusal::NoDrawer)?;
    fill(drawer, count);
    Ok(())
}

fn fill(drawer: &mut [u8], count: u32)
    requires { (length drawer.old ≡ 4 * (width * count)) × (0 < count) × (count ≤ 65536) }
    ensures { drawer.new ≡ bytes_of (fresh_to count count) }
{
    put_first(drawer, count);
    for r in 1..count {
        put_free(drawer, r, next_free(count, r));
    }
}

/// Record 0: no head but that of the free chain, and the record's length in bytes.
fn put_first(drawer: &mut [u8], count: u32)
    requires { (4 * width ≤ length drawer.old) × (0 < count) × (count ≤ 65536) }
    ensures { drawer.new ≡ put_at 0 (first_words count) drawer.old }
{
    let mut record = [0; RECORD_WORDS as usize];
    record[FREE as usize] = next_free(count, 0);
    record[LENGTH as usize] = 4 * RECORD_WORDS;
    words::put(drawer, 0, &record);
}

/// A free record: its next index, then zeros.
pub fn put_free(drawer: &mut [u8], r: u32, next: u32)
    requires { (4 * (width * r + width) ≤ length drawer.old) × (r < 65536) }
    ensures { drawer.new ≡ put_at (width * r) (free_words next) drawer.old }
{
    let mut free = [0; RECORD_WORDS as usize];
    free[0] = next;
    words::put(drawer, (RECORD_WORDS * r) as usize, &free);
}

// Stays: 0 for no record. It is the word that the buffer holds, and it is only written.
fn next_free(count: u32, r: u32) -> u32
    requires { (r < count) × (count ≤ 65536) }
    ensures { result ≡ next_free count r }
{
    if r + 1 < count { r + 1 } else { 0 }
}
