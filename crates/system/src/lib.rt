// The state of a board, and what the calls do to it.
#![tactic(auto)]

pub mod applying;
pub mod asking;
pub mod ranks;
pub mod stack;
pub mod starting;
pub mod state;
mod steps;
pub mod system;
pub mod table;
mod waking;
