// The index of a file's chunks, in a table that the caller lends, and the summary.
#![tactic(auto)]

pub mod entry;
pub mod index;
pub mod summary;
