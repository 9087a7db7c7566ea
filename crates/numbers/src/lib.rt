// The numbers of tasks, interrupt lines and events, and sets of them.
#![tactic(auto)]

pub mod number;
pub mod set;
