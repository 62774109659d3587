// A state, and what a frame puts out besides it, written into bytes.
ghost use Rattle.std.specs.Prelude.{◌≡◌, ℕ, ◌+◌, ◌*◌, ◌≤◌, List, [], ◌∷◌, ◌++◌, length, slice_index_or, refl};
ghost use Rattle.std.proofs.Common.{rules};
ghost use Rattle.words.specs.Words.{bytes_of, put_at};
ghost use Rattle.area.specs.Frame.{time_words};
ghost use Rattle.area.specs.Outcome.{outcome_in};
ghost use Rattle.records.specs.Record as Spec;

use crate::read::STATE;
use area::{Outputs, ScrollingToTarget, State, put_time};
use numbers::{Ieee, Rect};

/// The bytes of what a frame puts out besides the state.
pub const OUTPUTS: usize = 100;

// What is written as words, always as many of them.
pub trait ToWords: Copy {
    const COUNT: usize;

    ghost COUNT: { ℕ };

    ghost words: { Self → List ℕ };

    // From word `at` on, counted from 0; the rest stays.
    fn put(self, bytes: &mut [u8], at: usize)
        requires { 4 * at + 4 * COUNT ≤ length bytes.old }
        ensures { bytes.new ≡ put_at at (words self) bytes.old };

    ghost counted: { (value : Self) → length (words value) ≡ COUNT };
}

impl ToWords for bool {
    const COUNT: usize = 1;

    ghost COUNT = { 1 };

    ghost words = { λ flag. Spec.flag_word flag ∷ [] };

    ghost counted = { λ flag. refl };

    fn put(self, bytes: &mut [u8], at: usize) {
        words::put(bytes, at, &[u32::from(self)]);
    }
}

impl ToWords for f32 {
    const COUNT: usize = 1;

    ghost COUNT = { 1 };

    ghost words = { λ x. Spec.number_word x ∷ [] };

    ghost counted = { λ x. refl };

    fn put(self, bytes: &mut [u8], at: usize) {
        words::put(bytes, at, &[self.bits()]);
    }
}

// The low word first.
impl ToWords for f64 {
    const COUNT: usize = 2;

    ghost COUNT = { 2 };

    ghost words = { time_words };

    ghost counted = { λ t. refl };

    fn put(self, bytes: &mut [u8], at: usize) {
        put_time(bytes, at, self);
    }
}

impl ToWords for Rect {
    const COUNT: usize = 4;

    ghost COUNT = { 4 };

    ghost words = { Spec.rect_words };

    ghost counted = { λ r. refl };

    fn put(self, bytes: &mut [u8], at: usize) {
        let Rect { min, max } = self;
        words::put(
            bytes,
            at,
            &[min.x.bits(), min.y.bits(), max.x.bits(), max.y.bits()],
        );
    }
}

impl ToWords for ScrollingToTarget {
    const COUNT: usize = 5;

    ghost COUNT = { 5 };

    ghost words = { Spec.span_words };

    ghost counted = { λ t. refl };

    #[tactic(auto, using(crate::proofs::PartLaws::put_twice))]
    fn put(self, bytes: &mut [u8], at: usize) {
        self.start.put(bytes, at);
        self.end.put(bytes, at + 2);
        self.target_offset.put(bytes, at + 4);
    }
}

// What an option may hold: few words, so that one more for the flag is still counted.
pub trait Optional: ToWords {
    ghost few: { Self.COUNT ≤ 5 };
}

impl Optional for f32 {
    ghost few = { Prim.search rules };
}

impl Optional for Rect {
    ghost few = { Prim.search rules };
}

impl Optional for ScrollingToTarget {
    ghost few = { Prim.search rules };
}

// A flag, then the words; zeros where there is none.
impl<T: Optional> ToWords for Option<T> {
    const COUNT: usize = T::COUNT + 1;

    ghost COUNT = { T.COUNT + 1 };

    ghost words = { Spec.option_words T.COUNT T.words };

    ghost counted = { Spec.option_counted T.COUNT T.words T.counted };

    fn put(self, bytes: &mut [u8], at: usize) {
        match self {
            None => bytes[4 * at..4 * (at + Self::COUNT)].fill(0),
            Some(value) => {
                words::put(bytes, at, &[1]);
                value.put(bytes, at + 1);
            }
        }
    }
}

// Of both axes, x first.
#[tactic(auto, using(crate::proofs::PartLaws::put_twice))]
pub fn put_pair<T: ToWords>(bytes: &mut [u8], at: usize, pair: [T; 2])
    requires { 4 * at + 8 * T.COUNT ≤ length bytes.old }
    ensures { (otherwise : _) → bytes.new
        ≡ put_at at (T.words (slice_index_or pair 0 otherwise) ++ T.words (slice_index_or pair 1 otherwise)) bytes.old }
{
    let [x, y] = pair;
    x.put(bytes, at);
    y.put(bytes, at + T::COUNT);
}

// Stays: into the caller's bytes, here and in put_outcome. An array handed back would be copied there.
pub fn put_state(bytes: &mut [u8; STATE], s: State)
    ensures { bytes.new ≡ Spec.record_of s }
{
    put_pair(bytes, 0, s.offset);
    put_pair(bytes, 2, s.max_offset);
    put_pair(bytes, 4, s.offset_target);
    put_pair(bytes, 16, s.show_scroll);
    put_pair(bytes, 18, s.content_is_too_large);
    put_pair(bytes, 20, s.scroll_bar_interaction);
    put_pair(bytes, 22, s.vel);
    put_pair(bytes, 24, s.scroll_start_offset_from_top_left);
    put_pair(bytes, 28, s.scroll_stuck_to_end);
    s.interact_rect.put(bytes, 30);
    put_pair(bytes, 35, s.bounced_this_momentum);
    s.remembered_time.put(bytes, 37);
}

pub fn put_outcome(bytes: &mut [u8; OUTPUTS], o: Outputs)
    ensures { bytes.new ≡ bytes_of (Spec.out_words (outcome_in o)) }
{
    put_pair(bytes, 0, o.content_size);
    o.inner_rect.put(bytes, 2);
    o.viewport.put(bytes, 6);
    put_pair(bytes, 10, o.handles);
    put_pair(bytes, 20, o.wheel_delta_left);
    put_pair(bytes, 22, o.scroll_delta_left);
    o.repaint.put(bytes, 24);
}
