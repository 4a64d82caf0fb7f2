// The bodies of an AMV file, each read from the bytes that hold it.
#![tactic(auto)]

pub mod header;
pub mod preamble;
pub mod wave_format;
