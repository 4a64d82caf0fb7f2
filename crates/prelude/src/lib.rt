// The prelude: everything before the first chunk.
#![tactic(auto)]

pub mod build;
pub mod layout;
pub mod prelude;
