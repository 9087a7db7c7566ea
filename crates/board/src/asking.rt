// The questions to a plan.
ghost use Rattle.std.specs.Prelude.{◌≡◌};
ghost use Rattle.board.specs.Kinds.{policy_number, rule_number};
ghost use Rattle.board.specs.Plans.{padded};
ghost use Rattle.board.specs.Viewed.{Counted, given, parts};

use crate::choosing::PlanPolicy;
use crate::levels::Levels;
use crate::nesting::LevelNesting;
use crate::plan::{Counts, Plan, Tables};
use policy::policies::Favoured;
use policy::priorities::Priorities;

impl Plan {
    pub fn counts(&self) -> Counts
        ensures { Counted (parts self.now) result }
    {
        Counts {
            tasks: self.priorities.count,
            lines: self.levels.count,
            events: self.wakes.count,
        }
    }

    // Each part of the plan, under its name: the tables that make this plan.
    pub fn tables(&self) -> Tables<'_>
        ensures { given result ≡ parts self.now }
    {
        Tables {
            policy: self.policy as u8,
            rule: self.rule as u8,
            start: self.start,
            favoured: self.favoured,
            priorities: self.priorities.entries(),
            levels: self.levels.entries(),
            wakes: self.wakes.entries(),
        }
    }

    // The plan's policy, under its favoured group.
    pub fn policy(&self) -> Favoured<PlanPolicy>
        ensures group { result.group.bits ≡ (parts self.now).favoured }
        ensures kind { policy_number result.below.kind ≡ (parts self.now).policy }
        ensures priorities { result.below.priorities.of ≡ padded 0 (parts self.now).priorities }
    {
        Favoured {
            group: self.favoured,
            below: PlanPolicy {
                kind: self.policy,
                priorities: Priorities {
                    of: self.priorities.places,
                },
            },
        }
    }

    // The plan's nesting rule.
    pub fn nesting(&self) -> LevelNesting
        ensures rule { rule_number result.rule ≡ (parts self.now).rule }
        ensures levels { result.levels.of ≡ padded 0 (parts self.now).levels }
    {
        LevelNesting {
            rule: self.rule,
            levels: Levels::new(self.levels.places),
        }
    }
}
