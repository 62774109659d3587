// The words of a record with absent options as zeros.
ghost use Rattle.std.specs.Prelude.{◌≡◌, ◌==◌, if◌then◌else◌, ◌+◌, ◌*◌, ◌<◌, ◌≤◌, length, replicate, slice_index};
ghost use Rattle.words.specs.Words.{word_at};
ghost use Rattle.records.specs.Record.{HasRecord};
ghost use Rattle.records.specs.Tidied as Spec;

/// Where a record's options begin and end. A loop over these as a slice is laid out flat; over ranges by value it is not.
const OPTIONS: [(usize, usize); 5] = [(4, 10), (10, 16), (24, 26), (26, 28), (30, 35)];

/// The record begins at word at.
pub fn tidied(s: &[u8], at: u32) -> [u32; 39]
    requires { HasRecord s.now at }
    ensures answers { result ≡ Spec.tidied (word_at s.now) at }
    ensures holds { Spec.TidiedHolds }
{
    let mut words = [0; 39];
    copy(s, at, &mut words);
    for (start, end) in OPTIONS.iter() {
        clear_absent(&mut words[*start..*end]);
    }
    words
}

/// The words from word at on.
fn copy(s: &[u8], at: u32, words: &mut [u32])
    requires { (4 * at + 4 * length words.old ≤ length s.now) × (at + length words.old < 1073741824) }
    ensures { words.new ≡ Spec.words_from (word_at s.now) at (length words.old) }
{
    for (i, word) in words.iter_mut().enumerate() {
        *word = words::word_in(s, at + i as u32);
    }
}

/// An option whose flag, its first word, is 0 has zeros for its words.
fn clear_absent(option: &mut [u32])
    requires { 0 < length option.old }
    ensures { option.new ≡ if slice_index option.old 0 == 0 then replicate (length option.old) 0 else option.old }
{
    if option[0] == 0 {
        option.fill(0);
    }
}
