// Whether a float is finite, and an f32 as an f64. By comparison, and not by the library's methods: that of f64 would be one function more
// with a 64-bit number.
ghost use Rattle.std.specs.Prelude.{◌≡◌};
ghost use Rattle.std.specs.Float.Ieee.Scale.{finite};

pub fn is_finite_f32(x: f32) -> bool
    ensures { result ≡ finite x }
{
    let top: f32 = 1.0 / 0.0;
    x < top && -top < x
}

pub fn is_finite_f64(x: f64) -> bool
    ensures { result ≡ finite x }
{
    let top: f64 = 1.0 / 0.0;
    x < top && -top < x
}

// The same value in the wider format, a NaN included.
pub fn f64_from_f32(x: f32) -> f64
    ensures { result ≡ x }
{
    std::num::f32_to_f64_with_nan(x)
}
