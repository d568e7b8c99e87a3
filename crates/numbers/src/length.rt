// The length of a direction, and what a direction is multiplied by to have length 1. Three numbers, as the definitions have them.
ghost use Rattle.std.specs.Prelude.{◌≡◌};
ghost use Rattle.numbers.specs.Length.{squares, length_of, inverse};

fn sum_of_squares(x: f32, y: f32, z: f32) -> f32
    ensures { result ≡ squares x y z }
{
    x * x + y * y + z * z
}

pub fn length(x: f32, y: f32, z: f32) -> f32
    ensures { result ≡ length_of x y z }
{
    crate::sqrt::sqrt_f32(sum_of_squares(x, y, z))
}

// 1 / length, or 0 where the length is not above 0.
pub fn inverse_length(x: f32, y: f32, z: f32) -> f32
    ensures { result ≡ inverse (length_of x y z) }
{
    let l = length(x, y, z);
    if l > 0.0 { 1.0 / l } else { 0.0 }
}
