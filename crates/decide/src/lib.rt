// What the commands decide from plain numbers: judges, and rules on a word, a depth, a matrix or a table. A file for each kind.
#![tactic(auto)]

pub mod append;
pub mod family;
pub mod geometry;
pub mod judge;
pub mod lights;
pub mod number;
pub mod stack;
