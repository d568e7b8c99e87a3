// Calls the function that a record names and writes its answer.
ghost use Rattle.std.specs.Prelude.{◌≤◌};

use crate::script::Function;
use crate::{script, show};
use numbers::ratio::{Whole, by};
use std::io;

// The half of word 0, read with its sign.
fn signed(s: &[u8]) -> i16 {
    numbers::signed::signed_half(script::half(s, 0))
}

// The byte of word 0, read with its sign.
fn small(s: &[u8]) -> i8 {
    numbers::signed::signed_byte(script::octet(s, 0))
}

// The three floats from word k on. Asks for a word that a function can have.
fn three(s: &[u8], k: u8) -> [f32; 3]
    requires { k ≤ 16 }
{
    [
        script::float(s, k),
        script::float(s, k + 1),
        script::float(s, k + 2),
    ]
}

fn length(s: &[u8]) -> f32 {
    let [x, y, z] = three(s, 0);
    numbers::length::length(x, y, z)
}

fn inverse_length(s: &[u8]) -> f32 {
    let [x, y, z] = three(s, 0);
    numbers::length::inverse_length(x, y, z)
}

fn entry(out: &impl Print, s: &[u8]) -> io::Result<()> {
    let e = numbers::entry::matrix_entry(signed(s), script::half(s, 1));
    show::single(out, e.value)?;
    show::space(out)?;
    show::truth(out, e.exact)
}

fn clip_code(out: &impl Print, s: &[u8]) -> io::Result<()> {
    match matrix::clip::clip_code(script::row(s, 0)) {
        Some(bits) => show::bits(out, bits),
        None => show::none(out),
    }
}

fn screen_z(out: &impl Print, s: &[u8]) -> io::Result<()> {
    let coded = script::word(s, 4) != 0;
    let depth = matrix::clip::screen_z(
        script::row(s, 0),
        coded,
        script::float(s, 5),
        script::float(s, 6),
    );
    match depth {
        Some(z) => show::double(out, z),
        None => show::none(out),
    }
}

fn position(out: &impl Print, s: &[u8]) -> io::Result<()> {
    let r = matrix::math::mul_row_vec4(script::row(s, 0), script::matrix(s, 4));
    show::singles(out, &r)
}

// The matrix comes first, then the column.
fn column(out: &impl Print, s: &[u8]) -> io::Result<()> {
    let r = matrix::math::mul_col_vec3(script::matrix(s, 0), three(s, 16));
    show::singles(out, &r)
}

fn product(out: &impl Print, s: &[u8]) -> io::Result<()> {
    let r = matrix::math::mul4(script::matrix(s, 0), script::matrix(s, 16));
    show::singles(out, r.as_flattened())
}

// Writes the answer of the function to the arguments s, in a line. A whole number is shown as the f32 of the same value.
pub fn run(out: &impl Print, function: Function, s: &[u8]) -> io::Result<()> {
    match function {
        Function::SignedHalf => show::single(out, signed(s) as f32),
        Function::SignedByte => show::single(out, small(s) as f32),
        Function::WholeHalf => show::single(out, signed(s).to_f32()),
        Function::WholeByte => show::single(out, small(s).to_f32()),
        Function::By4 => show::single(out, by::<4, _>(signed(s))),
        Function::By32 => show::single(out, by::<32, _>(signed(s))),
        Function::By1024 => show::single(out, by::<1024, _>(signed(s))),
        Function::By127 => show::single(out, by::<127, _>(small(s))),
        Function::By255 => show::single(out, by::<255, _>(script::octet(s, 0))),
        Function::By65536 => show::single(out, by::<65536, _>(script::half(s, 0))),
        Function::By2097152 => show::single(out, by::<2097152, _>(script::half(s, 0))),
        Function::By67108864 => show::single(out, numbers::ratio::by_67108864(script::word(s, 0))),
        Function::SqrtF32 => show::single(out, numbers::sqrt::sqrt_f32(script::float(s, 0))),
        Function::WideBy65536 => show::double(
            out,
            numbers::ratio::wide_by_65536(script::word(s, 0)),
        ),
        Function::F64FromF32 => show::double(
            out,
            numbers::finite::f64_from_f32(script::float(s, 0)),
        ),
        Function::IsFiniteF32 => show::truth(
            out,
            numbers::finite::is_finite_f32(script::float(s, 0)),
        ),
        Function::IsFiniteF64 => show::truth(
            out,
            numbers::finite::is_finite_f64(script::double(s)),
        ),
        Function::MatrixEntry => entry(out, s),
        Function::Length => show::single(out, length(s)),
        Function::InverseLength => show::single(out, inverse_length(s)),
        Function::ClipCode => clip_code(out, s),
        Function::ScreenZ => screen_z(out, s),
        Function::MulRowVec4 => position(out, s),
        Function::MulColVec3 => column(out, s),
        Function::Mul4 => product(out, s),
    }?;
    show::end(out)
}
