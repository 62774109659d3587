// A frame's line: the number kept after each of its words.
ghost use Rattle.std.specs.Prelude.{◌≡◌, ◌<◌};
ghost use Rattle.area.specs.Sweep.{swept_of};
ghost use Rattle.sweep.specs.Line as Spec;

// Stays: bytes. A line is 105 bytes and is proved as such.
pub fn line_of(frame: &[u8]) -> [u8; 105]
    ensures { result ≡ Spec.line_of frame.now }
{
    // The last byte stays a line feed.
    let mut line = [b'\n'; 105];
    for (n, digit) in line[..104].iter_mut().enumerate() {
        *digit = digit_after(frame, n + 1);
    }
    line
}

// The number kept after n words, as ASCII.
#[tactic(auto, using(crate::proofs::LineLaws::digit_is))]
fn digit_after(frame: &[u8], n: usize) -> u8
    requires { n < 105 }
    ensures { result ≡ Spec.digit_after frame.now n }
{
    b'0' + (number_after(frame, n as u32) % 8) as u8
}

// The number kept after n words, or 0.
fn number_after(frame: &[u8], n: u32) -> u32
    ensures { result ≡ (swept_of frame.now n).kept }
{
    refusals::number(&area::sweep_words(frame, n).kept)
}
