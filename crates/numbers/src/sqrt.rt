// The square root of an f32, with no number wider than 32 bits. Worked out digit by digit, as docs/REFERENCE.md 19 has it:
// the library's `f32::sqrt` rests on the machine's instruction.
ghost use Rattle.std.specs.Prelude.{◌≡◌, ℕ, ◌+◌, ◌*◌, ◌^◌, ◌<◌, ◌≤◌, from_bits};
ghost use Rattle.std.specs.Float.{binary32};
ghost use Rattle.numbers.specs.Sqrt.{root_by, rooted, sqrt};

// The root of a * 2^16, which has 47 or 48 binary digits, to the nearest whole number: 24 digits, from the
// highest, each from two digits of a. `rest` is what the digits taken so far are above the square of `root`.
fn nearest_root(a: u32) -> u32
    requires { (1073741824 ≤ a) × (a ≤ 4294967040) }
    ensures { (result ≡ root_by 0 (a * 65536)) × ((8388608 ≤ result) × (result < 16777216)) }
{
    let mut root: u32 = 0;
    let mut rest: u32 = 0;
    let mut left: u32 = a;
    for _ in 0..24u32 {
        let next = rest * 4 + left / 1073741824;
        left = (left % 1073741824) * 4;
        let odd = root * 4 + 1;
        if odd <= next {
            rest = next - odd;
            root = root * 2 + 1;
        } else {
            rest = next;
            root = root * 2;
        }
    }
    if rest > root { root + 1 } else { root }
}

// The bits of the root of digits * 2^power squared units of 2^-149.
fn root_of(digits: u32, power: u32) -> u32
    requires { ((8388608 ≤ digits) × (digits < 16777216)) × ((126 ≤ power) × (power ≤ 402)) }
    ensures { (from_bits binary32 result ≡ rooted binary32 (digits * 2 ^ power)) × (result < 2139095040) }
{
    if power % 2 == 1 {
        (power - 23) / 2 * 8388608 + nearest_root(digits * 128)
    } else {
        (power - 24) / 2 * 8388608 + nearest_root(digits * 256)
    }
}

// The bits of the root of a number below the normal ones, digits * 2^-149. It is doubled until it is normal: what is counted is the
// power, and no index.
fn root_of_small(bits: u32) -> u32
    requires { (0 < bits) × (bits < 8388608) }
    ensures { (from_bits binary32 result ≡ rooted binary32 (bits * 2 ^ 149)) × (result < 2139095040) }
{
    let mut digits = bits;
    let mut power: u32 = 149;
    while digits < 8388608 {
        digits = digits * 2;
        power = power - 1;
    }
    root_of(digits, power)
}

// The square root of x. `x != x` and no `is_nan`: each function called here is one more to be shown free of wider numbers.
pub fn sqrt_f32(x: f32) -> f32
    ensures { result ≡ sqrt binary32 x }
{
    if x != x {
        return x;
    }
    let bits = f32::to_bits(x);
    if bits % 2147483648 == 0 {
        return x;
    }
    if bits > 2147483648 {
        return 0.0 / 0.0;
    }
    if bits == 2139095040 {
        return x;
    }
    if bits < 8388608 {
        f32::from_bits(root_of_small(bits))
    } else {
        f32::from_bits(root_of(bits % 8388608 + 8388608, bits / 8388608 + 148))
    }
}
