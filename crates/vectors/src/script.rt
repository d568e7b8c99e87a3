// The script: records one after the other, each a byte that names a function and then its arguments in words of 32 bits,
// low byte first. A float is given by its bits, an f64 by two words, the low one first.
ghost use Rattle.std.specs.Prelude.{◌≡◌, ◌%◌, ◌≤◌};
ghost use Rattle.vectors.specs.Script.{word_at, long_at, float_at, double_at, row_at, matrix_at};

pub use input::word;

// The functions that a script can name.
#[derive(Clone, Copy)]
pub enum Function {
    SignedHalf,
    SignedByte,
    WholeHalf,
    WholeByte,
    By4,
    By32,
    By1024,
    By127,
    By255,
    By65536,
    By2097152,
    By67108864,
    SqrtF32,
    WideBy65536,
    F64FromF32,
    IsFiniteF32,
    IsFiniteF64,
    MatrixEntry,
    Length,
    InverseLength,
    ClipCode,
    ScreenZ,
    MulRowVec4,
    MulColVec3,
    Mul4,
}

// A byte that names none.
#[derive(Clone, Copy)]
pub struct Unknown;

// The numbers are the places in make.py, from 1 on.
impl TryFrom<u8> for Function {
    type Error = Unknown;

    fn try_from(op: u8) -> Result<Function, Unknown> {
        Ok(match op {
            1 => Function::SignedHalf,
            2 => Function::SignedByte,
            3 => Function::WholeHalf,
            4 => Function::WholeByte,
            5 => Function::By4,
            6 => Function::By32,
            7 => Function::By1024,
            8 => Function::By127,
            9 => Function::By255,
            10 => Function::By65536,
            11 => Function::By2097152,
            12 => Function::By67108864,
            13 => Function::SqrtF32,
            14 => Function::WideBy65536,
            15 => Function::F64FromF32,
            16 => Function::IsFiniteF32,
            17 => Function::IsFiniteF64,
            18 => Function::MatrixEntry,
            19 => Function::Length,
            20 => Function::InverseLength,
            21 => Function::ClipCode,
            22 => Function::ScreenZ,
            23 => Function::MulRowVec4,
            24 => Function::MulColVec3,
            25 => Function::Mul4,
            _ => return Err(Unknown),
        })
    }
}

impl Function {
    // How many words the function takes.
    pub fn words(self) -> usize
        ensures { result ≤ 32 }
    {
        match self {
            Function::IsFiniteF64 | Function::MatrixEntry => 2,
            Function::Length | Function::InverseLength => 3,
            Function::ClipCode => 4,
            Function::ScreenZ => 7,
            Function::MulRowVec4 => 20,
            Function::MulColVec3 => 19,
            Function::Mul4 => 32,
            _ => 1,
        }
    }
}

// The low 16 bits of word k. A cast has to fit, so each width says its own remainder, here and below.
pub fn half(s: &[u8], k: u8) -> u16
    ensures { result ≡ word_at s.now k % 65536 }
{
    (word(s, k) % 65536) as u16
}

// The low 8 bits of word k.
pub fn octet(s: &[u8], k: u8) -> u8
    ensures { result ≡ word_at s.now k % 256 }
{
    (word(s, k) % 256) as u8
}

// The f32 whose bits are word k, a NaN where they are a NaN's.
#[tactic(auto, unfolding(crate::specs::Script::float_at))]
pub fn float(s: &[u8], k: u8) -> f32
    ensures { result ≡ float_at s.now k }
{
    std::num::f32_from_bits_with_nan(word(s, k))
}

// Words 0 and 1, the low one first. The library joins bytes, and no words.
fn long(s: &[u8]) -> u64
    ensures { result ≡ long_at s.now }
{
    u64::from(word(s, 0)) + u64::from(word(s, 1)) * 4294967296
}

// The f64 whose bits are words 0 and 1, a NaN where they are a NaN's.
#[tactic(auto, unfolding(crate::specs::Script::double_at))]
pub fn double(s: &[u8]) -> f64
    ensures { result ≡ double_at s.now }
{
    std::num::f64_from_bits_with_nan(long(s))
}

// The four f32 from word k on.
pub fn row(s: &[u8], k: u8) -> [f32; 4]
    requires { k ≤ 28 }
    ensures { result ≡ row_at s.now k }
{
    [
        float(s, k),
        float(s, k + 1),
        float(s, k + 2),
        float(s, k + 3),
    ]
}

// The sixteen f32 from word k on, row by row.
pub fn matrix(s: &[u8], k: u8) -> [[f32; 4]; 4]
    requires { k ≤ 16 }
    ensures { result ≡ matrix_at s.now k }
{
    [row(s, k), row(s, k + 4), row(s, k + 8), row(s, k + 12)]
}
