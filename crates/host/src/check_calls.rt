// The call that judges a frame alone.
ghost use Rattle.std.specs.Prelude.{◌≡◌, ◌<◌, IfSome, unwrap_or};
ghost use Rattle.area.specs.Sweep as Spec;

// The number of the word that made a frame bad.
pub fn strakobud_bad_word(frame: &[u8]) -> Option<u32>
    ensures answers { unwrap_or result 0 ≡ Spec.bad_word frame.now }
    ensures is_word { IfSome result (λ word. 0 < word) }
    ensures holds { Spec.BadWordHolds frame.now (unwrap_or result 0) }
{
    area::bad_word(frame)
}
