// A trace: its header, its ops and what follows each, read from a script; and its own acts.
#![tactic(auto)]

pub mod act;
pub mod header;
pub mod ops;
pub mod rooms;
pub mod script;
