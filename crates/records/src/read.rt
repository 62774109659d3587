// A state from the bytes of its record. Words are numbered from 1, as a frame's are.
ghost use Rattle.std.specs.Prelude.{◌≡◌, ◌+◌, ◌*◌, ◌≤◌, length, nat_lt};
ghost use Rattle.words.specs.Words.{word_at};
ghost use Rattle.records.specs.Record as Spec;

use area::{FromWords, State};

/// The bytes of a state's record.
pub const STATE: usize = 156;

// Stays: State is area's, so no From for it can stand here; and State::at in area would ask for place and length at each call.
#[tactic(auto, unfolding(crate::specs::Record::state_of, area::specs::Frame::pair_no, area::specs::Frame::flags_no, area::specs::Frame::both_no, area::specs::Frame::number_no, area::specs::Frame::flag_no))]
pub fn state_of(bytes: &[u8; STATE]) -> State
    ensures { result ≡ Spec.state_of bytes.now }
{
    let s: &[u8] = bytes;
    State {
        offset: FromWords::at(s, 1),
        max_offset: FromWords::at(s, 3),
        offset_target: [Option::at(s, 5), Option::at(s, 11)],
        show_scroll: FromWords::at(s, 17),
        content_is_too_large: FromWords::at(s, 19),
        scroll_bar_interaction: FromWords::at(s, 21),
        vel: FromWords::at(s, 23),
        scroll_start_offset_from_top_left: [Option::at(s, 25), Option::at(s, 27)],
        scroll_stuck_to_end: FromWords::at(s, 29),
        interact_rect: Option::at(s, 31),
        bounced_this_momentum: FromWords::at(s, 36),
        remembered_time: f64::at(s, 38),
    }
}

// A flag's word that is neither 0 nor 1.
pub fn is_no_flag(word: u32) -> bool
    ensures { result ≡ nat_lt 1 word }
{
    1 < word
}

// The words of a record that are flags, by their number from 0.
const FLAGS: [u32; 15] = [4, 10, 16, 17, 18, 19, 20, 21, 24, 26, 28, 29, 30, 35, 36];

// A flag that is not 0 or 1, in the record that begins at word at; words are counted from 0 here.
// Stays: bytes and a place, here and in tidied. The definitions number the words of the whole buffer.
pub fn is_damaged(s: &[u8], at: u32) -> bool
    requires { Spec.HasRecord s.now at }
    ensures { result ≡ Spec.is_damaged (word_at s.now) at }
{
    // Stays: folded. An any branches at each flag, and a drawer's load then takes 109 instructions a record in place of 63.
    FLAGS.iter().fold(
        false,
        |damaged, i| damaged | is_no_flag(words::word_in(s, at + i)),
    )
}
