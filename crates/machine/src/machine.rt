// The machine of a board.
use policy::policies::Policy;
use system::system::System;

#[derive(Drop)]
pub struct Machine<P: Policy> {
    pub(crate) system: System,
    pub(crate) policy: P,
}
