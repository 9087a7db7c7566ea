// What the machine does, as definitions over its own routines, places and calls, and what holds after every list of
// calls.
#![tactic(auto)]

pub mod answer;
pub mod call;
pub mod place;
pub mod routine;
