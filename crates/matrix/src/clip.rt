// The clip code and the screen z of a position in clip space.
ghost use Rattle.std.specs.Prelude.{◌≡◌, ◌≤◌};
ghost use Rattle.matrix.specs.Clip.{bit_of, bits_of, all_finite, code_of, screen_of, depth_of};

fn bit(b: bool, k: u8) -> u8
    ensures { (result ≡ bit_of b k) × (result ≤ k) }
{
    if b { k } else { 0 }
}

// Bits 0 to 5: x < -w, x > w, y < -w, y > w, z < -w, z > w.
fn bits_of(p: [f32; 4]) -> u8
    ensures { result ≡ bits_of p }
{
    bit(p[0] < -p[3], 1)
        + bit(p[0] > p[3], 2)
        + bit(p[1] < -p[3], 4)
        + bit(p[1] > p[3], 8)
        + bit(p[2] < -p[3], 16)
        + bit(p[2] > p[3], 32)
}

// None of the four numbers is a NaN or an infinity.
fn all_finite(p: [f32; 4]) -> bool
    ensures { result ≡ all_finite p }
{
    p.iter().all(|x| numbers::finite::is_finite_f32(*x))
}

// None if one of the four numbers is not finite.
pub fn clip_code(p: [f32; 4]) -> Option<u8>
    ensures { result ≡ code_of p }
{
    all_finite(p).then_some(bits_of(p))
}

// (z / w * scale + translation) * 1024, in f64.
fn screen(p: [f32; 4], scale: f32, translation: f32) -> f64
    ensures { result ≡ screen_of p scale translation }
{
    let z = numbers::finite::f64_from_f32(p[2]);
    let w = numbers::finite::f64_from_f32(p[3]);
    let s = numbers::finite::f64_from_f32(scale);
    let t = numbers::finite::f64_from_f32(translation);
    (z / w * s + t) * 1024.0
}

// None without a code, for w = 0, or if it is not finite. `scale` and `translation` are the viewport's for z.
pub fn screen_z(p: [f32; 4], coded: bool, scale: f32, translation: f32) -> Option<f64>
    ensures { result ≡ depth_of p coded scale translation }
{
    let z = screen(p, scale, translation);
    let some = coded & (p[3] != 0.0) & numbers::finite::is_finite_f64(z);
    some.then_some(z)
}
