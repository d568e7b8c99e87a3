// Halves and bytes read with their sign. One function for each width, as the library's methods are: these say it by the word `signed`.
ghost use Rattle.std.specs.Prelude.{◌≡◌};
ghost use Rattle.numbers.specs.Ratio.{signed};

// The 16 bits `h` as a number with a sign.
#[tactic(auto, using(crate::proofs::Halves::cast_is))]
pub fn signed_half(h: u16) -> i16
    ensures { result ≡ signed 16 h }
{
    h.cast_signed()
}

// The 8 bits `b` as a number with a sign.
#[tactic(auto, using(crate::proofs::Halves::cast_is))]
pub fn signed_byte(b: u8) -> i8
    ensures { result ≡ signed 8 b }
{
    b.cast_signed()
}
