// The policy that a plan names.
ghost use Rattle.std.specs.Prelude.{◌≡◌};
ghost use Rattle.board.specs.Planned.{chosen_by};
ghost use Rattle.policy.specs.Staying.{answered_empty, answered_member};
ghost use Rattle.board.specs.Choosing.{answers};
ghost use Rattle.board.specs.Choosing;

use crate::kinds::PolicyKind;
use numbers::number::TaskNo;
use numbers::set::Set;
use policy::policies::{Policy, Priority, Shared, Stay};
use policy::priorities::Priorities;

#[derive(Clone, Copy)]
pub struct PlanPolicy {
    pub kind: PolicyKind,
    pub priorities: Priorities,
}

impl Policy for PlanPolicy {
    ghost chosen = { λ p s c. chosen_by p.kind p.priorities.of s c };

    ghost empty = { λ p s c small. answered_empty s (chosen_by p.kind p.priorities.of s c) (answers p.kind p s c small) };

    ghost member = { λ p s c small. answered_member s (chosen_by p.kind p.priorities.of s c) (answers p.kind p s c small) };

    ghost settles = { λ p s c t small e. Choosing.settles p.kind p.priorities.of s c t e };

    fn choose(&self, ready: Set<TaskNo>, current: TaskNo) -> Option<TaskNo> {
        // The kinds are closed and the policy is copied, so a match and no `dyn`.
        let priorities = self.priorities;
        match self.kind {
            PolicyKind::Priority => Priority { priorities }.choose(ready, current),
            PolicyKind::Stay => Stay.choose(ready, current),
            PolicyKind::Shared => Shared { priorities }.choose(ready, current),
        }
    }
}
