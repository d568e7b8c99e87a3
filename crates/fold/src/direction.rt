// A direction brought from the eye's space into the object's.
ghost use Rattle.std.specs.Prelude.{◌≡◌};
ghost use Rattle.fold.specs.Direction.{folded};

// M times v on the upper 3 by 3, times 1 / length, or times 0 where the length is not above 0.
#[tactic(auto, unfolding(crate::specs::Direction::folded))]
pub fn fold_direction(m: [[f32; 4]; 4], v: [f32; 3]) -> [f32; 3]
    ensures { result ≡ folded m v }
{
    let o = matrix::math::mul_col_vec3(m, v);
    let i = numbers::length::inverse_length(o[0], o[1], o[2]);
    [o[0] * i, o[1] * i, o[2] * i]
}
