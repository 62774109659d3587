// The call that judges a frame alone.
ghost use Rattle.std.specs.Prelude.{◌≡◌};
ghost use Rattle.area.specs.Sweep as Spec;

#[unsafe(no_mangle)]
pub extern "C" fn strakobud_bad_word(frame: &[u8]) -> u32
    ensures answers { result ≡ Spec.bad_word frame.now }
    ensures holds { Spec.BadWordHolds frame.now result }
{
    host::strakobud_bad_word(frame).unwrap_or(0)
}
