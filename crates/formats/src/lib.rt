// The bytes of plans: reading them, writing them, and the faults of both.
#![tactic(auto)]

pub mod fault;
pub mod make;
pub mod read;
pub mod write;
