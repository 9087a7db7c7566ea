// What the programs that drive a board work out and print.
#![tactic(auto)]

pub mod drive;
