// What a load works out from plain values before it writes rows: folded lights and lookat, the fog pair's place, texture scales.
#![tactic(auto)]

pub mod decision;
pub mod direction;
pub mod fog;
pub mod lights;
pub mod lookat;
pub mod scales;
pub mod settle;
