// A maker's own table in bytes: 1,025 numbers of 64 bits, little-endian. It is checked once, when it is loaded, and lent to each call that
// it serves; where none is lent T serves.
// Stays: a table as bytes of any length. Each public call takes every length, and one of another than 8,200 stands for T.
ghost use Rattle.std.specs.Prelude.{◌≡◌, ◌<◌, length};
ghost use Rattle.refusals.specs.Refusal.{number_in};
ghost use Rattle.numbers.specs.Table.{is_ordered, load_of, table_of, Loads};

use crate::table::entry;
use refusals::Refusal;
use words::long_in;

/// The bytes of a table.
pub const TABLE: usize = 8200;

// The first entry, 2^40.
const FIRST: u64 = 1 << 40;

/// Whether the bytes are a table that may be lent: 10 for their length, then 11 for a first entry other than 2^40 or an entry above the one
/// before it.
#[tactic(auto, unfolding(crate::specs::Table::load_of))]
pub fn check_table(bytes: &[u8]) -> Result<(), Refusal>
    ensures answers { number_in result ≡ load_of bytes.now }
    ensures loads { Loads bytes.now (number_in result) }
{
    let Ok(table) = <&[u8; TABLE]>::try_from(bytes) else {
        return Err(Refusal::TableLength);
    };
    if !is_ordered(table) {
        return Err(Refusal::TableOrder);
    }
    Ok(())
}

// The first entry is 2^40, and none of the others is above the one before it.
#[tactic(auto, unfolding(crate::specs::Table::is_ordered))]
fn is_ordered(bytes: &[u8; TABLE]) -> bool
    ensures { result ≡ is_ordered bytes.now 1024 }
{
    let first = long_in(bytes, 0);
    first == FIRST && (0..1024).all(|k| long_in(bytes, k + 1) <= long_in(bytes, k))
}

// Entry k of the table that the bytes stand for. No table that loads has a number above 2^40; in one that nobody loaded it counts as 2^40.
#[tactic(auto, unfolding(crate::specs::Table::table_of))]
pub fn entry_in(table: &[u8], k: usize) -> u64
    requires { k < 1025 }
    ensures { result ≡ table_of table.now k }
{
    if table.len() == TABLE {
        long_in(table, k).min(FIRST)
    } else {
        entry(k)
    }
}
