// The calls, as one.
ghost use Rattle.kernel.specs.Rules.{apply};
ghost use Rattle.system.specs.Systems.{Makes, board_of, ranks_of, state_of};

use crate::system::System;
use kernel::answer::Answer;
use kernel::call::Call;
use policy::policies::Policy;

impl System {
    // Applies a call under a policy.
    #[tactic(auto, unfolding(kernel::specs::Rules::apply))]
    pub fn apply<P: Policy>(&mut self, policy: &P, call: Call) -> Answer
        ensures { Makes self.old self.new result (apply (board_of self.old) (P.Policy.chosen policy.now) (ranks_of self.old) call (state_of self.old)) }
    {
        // The calls are closed and each takes what is its own, which no table of functions could give.
        match call {
            Call::Raise(line) => self.raised(line),
            Call::Enter(line) => self.entered(line),
            Call::Pend => self.pended(),
            Call::Go => self.gone(policy),
            Call::Signal(set) => self.signalled(set),
            Call::Block => self.blocked(),
            Call::Post(event) => self.posted(event),
            Call::Leave => self.left(),
            Call::Mask(line) => self.set_enabled(line, false),
            Call::Unmask(line) => self.set_enabled(line, true),
        }
    }
}
