// The face of the product for programs: a reader that holds the file, and a writer that each call changes.
#![tactic(auto)]

pub mod plain;
pub mod progress;
pub mod reader;
pub mod writer;
