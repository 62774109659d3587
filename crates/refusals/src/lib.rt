// Why a call is refused: documents 01 and 02 give each reason a number.
#![tactic(auto)]

ghost use Rattle.std.specs.Prelude.{◌≡◌, ℕ, Some, if◌then◌else◌, IfOk, IfErr};
ghost use Rattle.std.specs.Fmt.{decimal};
ghost use Rattle.refusals.specs.Refusal as Spec;

use std::error::Error;
use std::fmt;

#[derive(Clone, Copy, Debug, PartialEq, Eq, PartialOrd, Ord)]
pub enum Refusal {
    /// 1: a frame's bytes are not exactly 416.
    FrameLength,
    /// 2: a flag is not 0 or 1, or a kind is outside its values.
    FlagOrKind,
    /// 3: a number is not finite, or exceeds its limit.
    Exceeds,
    /// 4: an end lies below its start, a size is negative, or a factor is outside 0 to 1.
    Outside,
    /// 5: a style that nothing can coast by.
    Style,
    /// 6: a number in the state is not finite, or a flag of its record is not 0 or 1.
    State,
    /// 7: a new press beside a handle that is longer than its bar.
    PressBlocked,
    /// 8: a number among the outputs is not finite.
    Outcome,
    /// 9: a settling run whose limit, increment or frame is not one.
    Run,
    /// 10: a table's bytes are not exactly 8,200.
    TableLength,
    /// 11: a table's first entry is another than 2^40, or an entry is above the one before it.
    TableOrder,
    /// 12: a frame's time is less than the remembered one.
    Clock,
    /// 13: the bytes are no drawer.
    NoDrawer,
    /// 14: nothing is kept under the id.
    NoEntry,
    /// 15: a new id, and no free record.
    DrawerFull,
}

impl From<Refusal> for u32 {
    ghost from_gives = { λ refusal number. number ≡ Spec.number_of refusal };

    fn from(refusal: Refusal) -> u32 {
        match refusal {
            Refusal::FrameLength => 1,
            Refusal::FlagOrKind => 2,
            Refusal::Exceeds => 3,
            Refusal::Outside => 4,
            Refusal::Style => 5,
            Refusal::State => 6,
            Refusal::PressBlocked => 7,
            Refusal::Outcome => 8,
            Refusal::Run => 9,
            Refusal::TableLength => 10,
            Refusal::TableOrder => 11,
            Refusal::Clock => 12,
            Refusal::NoDrawer => 13,
            Refusal::NoEntry => 14,
            Refusal::DrawerFull => 15,
        }
    }
}

/// The refusal, where a check fails.
pub fn refuse(fails: bool, refusal: Refusal) -> Result<(), Refusal>
    ensures { Spec.number_in result ≡ (if fails then Spec.number_of refusal else 0) }
{
    if fails { Err(refusal) } else { Ok(()) }
}

/// The number of a refused answer, or 0.
pub fn number<T>(answer: &Result<T, Refusal>) -> u32
    ensures { result ≡ Spec.number_in answer.now }
{
    match answer {
        Ok(_) => 0,
        Err(refusal) => u32::from(*refusal),
    }
}

// Its number.
impl fmt::Display for Refusal {
    ghost output = { λ refusal. Some (decimal (Spec.number_of refusal)) };

    fn fmt<W: fmt::Write>(&self, f: &mut fmt::Formatter<W>) -> fmt::Result {
        let number = u32::from(*self);
        write!(f, "{number}")
    }
}

impl Error for Refusal {}
