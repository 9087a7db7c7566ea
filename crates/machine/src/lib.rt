// The machine of a board: a plan under a policy and a nesting rule, and the ten calls.
#![tactic(auto)]

pub mod asking;
pub mod calls;
pub mod listing;
pub mod machine;
pub mod starting;
