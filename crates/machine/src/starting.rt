// Starting a machine.
ghost use Rattle.std.specs.Prelude.{◌≡◌, ℕ, ◌<◌, []};
ghost use Rattle.numbers.specs.declared.number.LineNo.{LineNo};
ghost use Rattle.board.specs.Figure.{figure_of};
ghost use Rattle.board.specs.Viewed.{parts};
ghost use Rattle.kernel.specs.Histories.{Leads};
ghost use Rattle.kernel.specs.Rules.{lines};
ghost use Rattle.kernel.specs.States.{start};
ghost use Rattle.machine.specs.Machines.{plan_of, policy_of, ranks_of, state_of};

use crate::machine::Machine;
use board::nesting::NestingRule;
use board::plan::Plan;
use policy::policies::Policy;
use system::system::System;

impl<P: Policy> Machine<P> {
    // The machine of a plan, under a policy and a nesting rule. The empty list of calls leads to it. The three come one by
    // one, here and where a list is applied: a caller may take any policy and any rule to any plan.
    pub fn start<N: NestingRule>(plan: Plan, policy: P, rule: &N) -> Machine<P>
        ensures state { state_of result ≡ start (parts plan) }
        ensures plan { plan_of result ≡ plan }
        ensures policy { policy_of result ≡ policy }
        ensures ranks { (i : LineNo) → i.0 < 16 → ranks_of result i ≡ N.NestingRule.ranked rule.now i }
        ensures figure { figure_of (ranks_of result) (lines (parts plan)) ≡ figure_of (N.NestingRule.ranked rule.now) (lines (parts plan)) }
        ensures leads { Leads (parts plan) (P.Policy.chosen policy) (ranks_of result) [] (state_of result) }
    {
        Machine {
            system: System::start(plan, rule),
            policy,
        }
    }
}
