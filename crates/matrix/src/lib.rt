// Products over 4 by 4 matrices, stored row by row, of which a position is a row: position times matrix. With them what
// a position in clip space is judged by.
#![tactic(auto)]

pub mod clip;
pub mod math;
