// Whole numbers as floats, and their quotients by the constants of REFERENCE 5, each rounded once.
ghost use Rattle.std.specs.Prelude.{◌≡◌, ℤ, ◌^◌, ◌<◌, ◌≤◌, pos, unsigned_abs};
ghost use Rattle.std.specs.Float.{binary32, binary64};
ghost use Rattle.numbers.specs.Ratio.{of_ratio};

// A whole number that an f32 holds exactly.
pub trait Whole {
    // The number.
    ghost number: { Self → ℤ };

    // The number as an f32.
    fn to_f32(self) -> f32
        ensures value { result ≡ of_ratio binary32 (number self) 1 }
        ensures held { unsigned_abs (number self) ≤ 2 ^ 24 };
}

impl Whole for i8 {
    ghost number = { λ x. x };

    #[tactic(auto, using(crate::proofs::Quotients::whole_signed))]
    fn to_f32(self) -> f32 {
        self as f32
    }
}

impl Whole for i16 {
    ghost number = { λ x. x };

    #[tactic(auto, using(crate::proofs::Quotients::whole_signed))]
    fn to_f32(self) -> f32 {
        self as f32
    }
}

impl Whole for u8 {
    ghost number = { λ x. pos x };

    #[tactic(auto, using(crate::proofs::Quotients::whole_is))]
    fn to_f32(self) -> f32 {
        self as f32
    }
}

impl Whole for u16 {
    ghost number = { λ x. pos x };

    #[tactic(auto, using(crate::proofs::Quotients::whole_is))]
    fn to_f32(self) -> f32 {
        self as f32
    }
}

// The number divided by D, which an f32 must hold as it holds the number: then the division alone rounds.
#[tactic(auto, using(crate::proofs::Quotients::div_held))]
pub fn by<const D: u32, T: Whole>(x: T) -> f32
    requires { (0 < D) × (D ≤ 2 ^ 24) }
    ensures { result ≡ of_ratio binary32 (T.number x) D }
{
    x.to_f32() / (D as f32)
}

// Not `by`: an f32 may not hold the number, which is rounded before the division. By a power of two that is the same as one
// rounding of the fraction.
pub fn by_67108864(x: u32) -> f32
    ensures { result ≡ of_ratio binary32 (pos x) 67108864 }
{
    std::num::nearest_u32_to_f32(x) / 67108864.0
}

// Not `by`: as an f64, which holds the fraction exactly.
pub fn wide_by_65536(x: u32) -> f64
    ensures { result ≡ of_ratio binary64 (pos x) 65536 }
{
    (x as f64) / 65536.0
}
