// Policies: which of the ready tasks is chosen.
#![tactic(auto)]

mod nearest;
pub mod policies;
pub mod priorities;
