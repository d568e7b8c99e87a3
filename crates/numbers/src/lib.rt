// Numbers from bytes (REFERENCE 5): read from bits with a sign, divided and rounded once, and the square root of IEEE 754.
#![tactic(auto)]

pub mod entry;
pub mod finite;
pub mod length;
pub mod ratio;
pub mod signed;
pub mod sqrt;
