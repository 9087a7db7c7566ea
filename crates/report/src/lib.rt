// What the programs work out from their input, and the text that they print.
#![tactic(auto)]

pub mod fault;
pub mod quote;
