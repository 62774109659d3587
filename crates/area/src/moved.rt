// Whether a frame moves an axis by hand or program, by its words alone, heeded or not.
ghost use Rattle.std.specs.Prelude.{◌≡◌};
ghost use Rattle.numbers.specs.Axis.{index_of};
ghost use Rattle.area.specs.Moved as Spec;

use crate::decode::FromWords;
use crate::frame::FRAME;
use numbers::Axis;

// An explicit offset, a background drag or its end, a press on its bar, a scroll target, or a scroll delta or wheel delta
// (on either axis) other than 0.
#[tactic(auto, unfolding(crate::specs::Moved::is_moved_by_words))]
pub fn is_moved_by_words(bytes: &[u8; FRAME], d: Axis) -> bool
    ensures { result ≡ Spec.is_moved_by_words bytes.now (index_of d) }
{
    let (offset, press, target, delta) = match d {
        Axis::X => (15, 74, 91, 86),
        Axis::Y => (17, 79, 98, 87),
    };
    bool::at(bytes, offset)
        | bool::at(bytes, 61)
        | bool::at(bytes, 62)
        | bool::at(bytes, press)
        | bool::at(bytes, target)
        | (f32::at(bytes, delta) != 0.0)
        | (f32::at(bytes, 64) != 0.0)
        | (f32::at(bytes, 65) != 0.0)
}
