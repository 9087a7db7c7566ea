// The bytes of runs: reading them step by step, writing them, and the faults of both.
#![tactic(auto)]

pub mod check;
pub mod fault;
pub mod reader;
pub mod step;
pub mod write;
