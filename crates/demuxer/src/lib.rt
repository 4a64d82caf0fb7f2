// Reading a file chunk by chunk: a walker by value over one lent slice.
#![tactic(auto)]

pub mod head;
pub mod packet;
pub mod position;
pub mod walker;
