// A stored film as an envelope.

#![tactic(auto)]

pub mod fault;
pub mod film;
