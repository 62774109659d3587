// A line of the listing, a function of its numbers alone.
ghost use Rattle.std.specs.Prelude.{◌≡◌, Some};
ghost use Rattle.refusals.specs.Refusal.{number_in};
ghost use Rattle.frames.specs.Line as Spec;

use listing::{Answer, Bits, Flag, Place};
use refusals::number;
use std::fmt;

// Stays: the refusal as the number that the line shows, 0 for none. An Option would be turned into it where it is written, and nowhere else read.
#[derive(Clone, Copy, Debug)]
pub struct Line {
    pub refusal: u32,
    pub place: Place,
}

// The refusal or 0, and where the state stands, in one piece: piece by piece a line takes as many instructions as its frame.
impl fmt::Display for Line {
    ghost output = { λ line. Some (Spec.line_of line.refusal line.place.offset line.place.vel line.place.stuck) };

    fn fmt<W: fmt::Write>(&self, f: &mut fmt::Formatter<W>) -> fmt::Result {
        let wide = self.wide();
        let text = self.text(&wide);
        f.write_str(str::from_utf8(text).map_err(|_| fmt::Error)?)
    }
}

impl Line {
    // Behind the first digit where the refusal has one alone.
    #[tactic(auto, using(crate::proofs::LineLaws::one_digit, crate::proofs::LineLaws::two_digits))]
    fn text<'a>(&self, wide: &'a [u8; 42]) -> &'a [u8]
        requires { wide.now ≡ Spec.wide_line_of self.now.refusal self.now.place.offset self.now.place.vel self.now.place.stuck }
        ensures { result.now ≡ Spec.line_of self.now.refusal self.now.place.offset self.now.place.vel self.now.place.stuck }
    {
        let is_short = self.refusal < 10;
        if is_short {
            return &wide[1..];
        }
        wide
    }

    // With two digits for the refusal, which has two at most.
    fn wide(&self) -> [u8; 42]
        ensures { result ≡ Spec.wide_line_of self.now.refusal self.now.place.offset self.now.place.vel self.now.place.stuck }
    {
        let Place { offset, vel, stuck } = self.place;
        let a = Bits(offset[0]).digits();
        let b = Bits(offset[1]).digits();
        let c = Bits(vel[0]).digits();
        let d = Bits(vel[1]).digits();
        [
            digit(self.refusal / 10),
            digit(self.refusal),
            32,
            a[0],
            a[1],
            a[2],
            a[3],
            a[4],
            a[5],
            a[6],
            a[7],
            32,
            b[0],
            b[1],
            b[2],
            b[3],
            b[4],
            b[5],
            b[6],
            b[7],
            32,
            c[0],
            c[1],
            c[2],
            c[3],
            c[4],
            c[5],
            c[6],
            c[7],
            32,
            d[0],
            d[1],
            d[2],
            d[3],
            d[4],
            d[5],
            d[6],
            d[7],
            32,
            Flag(stuck[0]).digit(),
            Flag(stuck[1]).digit(),
            10,
        ]
    }
}

impl From<Answer> for Line {
    ghost from_gives = { λ answer line. line ≡ record {
      refusal = number_in answer.outputs;
      place = record { offset = answer.state.offset; vel = answer.state.vel; stuck = answer.state.scroll_stuck_to_end };
    } };

    fn from(answer: Answer) -> Self {
        Line {
            refusal: number(&answer.outputs),
            place: Place::from(answer.state),
        }
    }
}

// The last decimal digit of n.
fn digit(n: u32) -> u8
    ensures { result ≡ Spec.digit_of n }
{
    48 + (n % 10) as u8
}
