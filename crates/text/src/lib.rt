// Text that is held in place, so that making it can't fail.
#![tactic(auto)]

pub mod text;
