// States and answers as 64-bit words, for callers in C.
#![tactic(auto)]

pub mod out;
pub mod walker;
pub mod writer;
