// A board: its plan, the policy and the nesting rule that it names, and its memory figure.
#![tactic(auto)]

pub mod asking;
pub mod choosing;
pub mod figure;
pub mod kinds;
pub mod levels;
pub mod making;
pub mod nesting;
pub mod plan;
pub mod refusal;
pub mod table;
