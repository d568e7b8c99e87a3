// An entry of a matrix: a signed whole part and a fraction in parts of 65536.
ghost use Rattle.std.specs.Prelude.{◌≡◌};
ghost use Rattle.numbers.specs.Ratio.{entry, exact};

use crate::ratio::{Whole, by};

// The value, rounded once, and whether nothing was lost. No Option: the value holds in both cases.
#[derive(Clone, Copy)]
pub struct Entry {
    pub value: f32,
    pub exact: bool,
}

// whole + fraction / 65536, both of which an f32 holds, added and so rounded once. What is left of the sum without the whole part
// is held too, so it is the fraction exactly where nothing was lost.
pub fn matrix_entry(whole: i16, fraction: u16) -> Entry
    ensures { result ≡ record { value = entry whole fraction; exact = exact whole fraction } }
{
    let a = whole.to_f32();
    let b = by::<65536, _>(fraction);
    let value = a + b;
    let exact = value - a == b;
    Entry { value, exact }
}
