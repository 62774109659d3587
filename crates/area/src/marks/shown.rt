// What the walk keeps: the lowest refusal that a word shows, with the first word that shows it.
ghost use Rattle.std.specs.Prelude.{◌<◌, ◌≤◌, ◌%◌};

use refusals::Refusal;

/// A refusal, and the word that shows it.
#[derive(Clone, Copy)]
pub struct Shown {
    pub refusal: Refusal,
    pub word: u32,
    // a frame has 104 words
    ghost in_frame: { (0 < word) × (word ≤ 104) },
}

/// What is kept of what the words show, or nothing.
// Stays: one number, the mark or 0. An Option of a Shown takes three times as long over bad words, or, compared in place, a fifth more over bad and good ones.
#[derive(Clone, Copy)]
pub struct Kept {
    mark: u32,
    ghost in_frame: { (mark < 2048) × (0 < mark → (128 < mark) × (0 < mark % 128) × (mark % 128 ≤ 104)) },
}

impl Kept {
    ghost use Rattle.std.specs.Prelude.{◌≡◌};
    ghost use Rattle.refusals.specs.Refusal.{number_of};
    ghost use Rattle.area.specs.Marks as Spec;

    pub fn none() -> Kept
        ensures { result.mark ≡ 0 }
    {
        Kept { mark: 0 }
    }

    /// With what one more word shows: the lower number stays and, of equal numbers, the earlier word.
    #[tactic(auto, using(crate::proofs::MarkLaws::at_most_15), unfolding(crate::specs::Marks::lower_mark))]
    pub fn with(self, shown: Shown) -> Kept
        ensures { result.mark ≡ Spec.lower_mark (Spec.mark_of shown) self.mark }
    {
        let own = u32::from(shown.refusal) * 128 + shown.word;
        if self.mark == 0 {
            return Kept { mark: own };
        }
        if own < self.mark {
            return Kept { mark: own };
        }
        self
    }

    pub fn shown(self) -> Option<Shown>
        ensures { Spec.mark_in result ≡ self.mark }
    {
        if self.mark == 0 {
            return None;
        }
        let refusal = Kept::refusal_of(self.mark / 128);
        Some(Shown {
            refusal,
            word: self.mark % 128,
        })
    }

    fn refusal_of(number: u32) -> Refusal
        requires { (0 < number) × (number ≤ 15) }
        ensures { number_of result ≡ number }
    {
        match number {
            1 => Refusal::FrameLength,
            2 => Refusal::FlagOrKind,
            3 => Refusal::Exceeds,
            4 => Refusal::Outside,
            5 => Refusal::Style,
            6 => Refusal::State,
            7 => Refusal::PressBlocked,
            8 => Refusal::Outcome,
            9 => Refusal::Run,
            10 => Refusal::TableLength,
            11 => Refusal::TableOrder,
            12 => Refusal::Clock,
            13 => Refusal::NoDrawer,
            14 => Refusal::NoEntry,
            _ => Refusal::DrawerFull,
        }
    }
}
