// What an op of a trace does: a command of the stage, or an act of the driver's own.
#![tactic(auto)]

pub mod act;
pub mod apply;
