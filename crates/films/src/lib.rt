// Making a film: the running totals of the sizes that a reader gives, in memory handed in.

#![tactic(auto)]

pub mod fault;
pub mod make;
