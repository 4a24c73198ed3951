// Sources whose sizes follow a rule: a pattern that repeats, and a live camera.

#![tactic(auto)]

mod check;
pub mod fault;
pub mod live;
pub mod pattern;
