// A plan followed by a run: each step's two numbers.
#![tactic(auto)]

pub mod driving;
pub mod fault;
