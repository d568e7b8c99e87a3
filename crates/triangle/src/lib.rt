// What a draw decides and writes, and what the tests of slots tell, over plain numbers. A file for each kind.
#![tactic(auto)]

pub mod run;
pub mod slot;
pub mod verdict;
