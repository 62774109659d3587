// Checks 2 to 5 in one walk over the words of a frame: each is taken once, in order, and counted, and the lowest number that they show is
// kept. No word is read twice: what a later one needs is carried along, an option's flag, the start of a range, both mins of a rectangle, the
// time's low word. The words of an option that is off are counted unread. The word numbers stand in the code, so that all of it folds into
// loads and tests.
ghost use Rattle.std.specs.Prelude.{◌≡◌, ◌<◌, IfSome, unwrap_or};
ghost use Rattle.area.specs.Marks as Marks;
ghost use Rattle.area.specs.Sweep as Spec;

mod field;
mod walk;

use crate::frame::FRAME;
use crate::marks::{
    DecayTime, Factor, Flag, Kind, Plain, PointsPerSecond, Size, SizeOrInfinity, StopDistance,
};
use field::{Range, Rect, Time};
use refusals::Refusal;
use walk::Walk;

/// The walk after some words: how many they are, and whether a refusal is kept.
#[derive(Clone, Copy)]
pub struct Swept {
    pub count: u32,
    pub kept: Result<(), Refusal>,
}

// A bar's response.
type Bar = ([Flag; 2], Option<[Plain; 2]>);

type Animation = (PointsPerSecond, Range);

// Range, align, animation.
type Target = (Range, (Kind<3>, Animation));

// ---- the parts of a frame, in the order of specs/Layout.antt

fn settings<'a>(walk: Walk<'a>) -> Walk<'a>
    ensures { result ≡ Marks.taking_words walk.entry 1 26 }
{
    walk.take::<[Flag; 2]>(1)
        .take::<[Flag; 2]>(3)
        .take::<[SizeOrInfinity; 2]>(5)
        .take::<[Size; 2]>(7)
        .take::<Kind<2>>(9)
        .take::<Option<Rect>>(10)
        .take::<Option<Plain>>(15)
        .take::<Option<Plain>>(17)
        .take::<Flag>(19)
        .take::<Kind<2>>(20)
        .take::<Flag>(21)
        .take::<[Plain; 2]>(22)
        .take::<[Flag; 2]>(24)
        .take::<Flag>(26)
}

fn style<'a>(walk: Walk<'a>) -> Walk<'a>
    ensures { result ≡ Marks.taking_words walk.entry 27 13 }
{
    walk.take::<Flag>(27)
        .take::<[Size; 2]>(28)
        .take::<[Size; 2]>(30)
        .take::<[Size; 2]>(32)
        .take::<[Plain; 2]>(34)
        .take::<Flag>(36)
        .take::<DecayTime>(37)
        .take::<StopDistance>(38)
        .take::<Flag>(39)
}

fn host<'a>(walk: Walk<'a>) -> Walk<'a>
    ensures { result ≡ Marks.taking_words walk.entry 40 42 }
{
    walk.take::<Rect>(40)
        .take::<Rect>(44)
        .take::<[Flag; 2]>(48)
        .take::<Flag>(50)
        .take::<Size>(51)
        .take::<Time>(52)
        .take::<Option<[Plain; 2]>>(54)
        .take::<[Plain; 2]>(57)
        .take::<[Plain; 2]>(59)
        .take::<[Flag; 2]>(61)
        .take::<Kind<4>>(63)
        .take::<[Plain; 2]>(64)
        .take::<[Factor; 2]>(66)
        .take::<[Factor; 2]>(68)
        .take::<[Factor; 2]>(70)
        .take::<Bar>(72)
        .take::<Bar>(77)
}

fn content<'a>(walk: Walk<'a>) -> Walk<'a>
    ensures { result ≡ Marks.taking_words walk.entry 82 23 }
{
    walk.take::<[Size; 2]>(82)
        .take::<[Plain; 2]>(84)
        .take::<[Plain; 2]>(86)
        .take::<Animation>(88)
        .take::<Option<Target>>(91)
        .take::<Option<Target>>(98)
}

// ---- the walk

// The first `last` words of a frame, or all; none of a frame of another length.
fn walk_over<'a>(frame: &'a [u8], last: u32) -> Option<Walk<'a>>
    ensures { Marks.walk_in result ≡ Marks.walk_of frame.now last }
{
    let Ok(whole) = <&[u8; FRAME]>::try_from(frame) else {
        return None;
    };
    Some(content(host(style(settings(Walk::new(whole, last))))))
}

/// After the first n words of a frame, or all: how many they are, and the refusal kept.
pub fn sweep_words(frame: &[u8], n: u32) -> Swept
    ensures answers { Spec.numbers_of result ≡ Spec.swept_of frame.now n }
    ensures holds { Spec.SweepHolds frame.now n (Spec.numbers_of result) }
{
    match walk_over(frame, n) {
        None => Swept {
            count: 0,
            kept: Err(Refusal::FrameLength),
        },
        Some(walk) => walk.swept(),
    }
}

/// The first word after which the refusal kept is the frame's, of 2 to 5.
pub fn bad_word(frame: &[u8]) -> Option<u32>
    ensures answers { unwrap_or result 0 ≡ Spec.bad_word frame.now }
    ensures is_word { IfSome result (λ word. 0 < word) }
    ensures holds { Spec.BadWordHolds frame.now (unwrap_or result 0) }
{
    let walk = walk_over(frame, 104)?;
    walk.bad_word()
}
