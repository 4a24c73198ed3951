// What a reader of a film file is, and why one refuses.

#![tactic(auto)]

pub mod fault;
pub mod field;
pub mod reader;
