// The layers that go over any envelope: delay, buffer, jitter, prefix, and any other that says how it alters what is below.

#![tactic(auto)]

pub mod buffer;
pub mod delay;
pub mod fault;
pub mod jitter;
pub mod layer;
pub mod number;
pub mod prefix;
