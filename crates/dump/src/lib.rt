// What the program writes: the line of each op, and the dump. No contract can say what goes to a file, so `write`, `answered`, `text`
// and `too_long` promise safety and end alone; what they print is under the contracts of `hash` and `show`.
#![tactic(auto)]

pub mod dump;
mod hash;
pub mod show;
mod slots;
mod tables;
