// A policy and a nesting rule from outside: they show what the traits ask, and nothing more.
#![tactic(auto)]

ghost use Rattle.std.specs.Prelude.{◌≡◌, ℕ, ◌*◌, ◌%◌, [], ◌∷◌, length, Option};
ghost use Rattle.std.proofs.Common.{ap, ◌∙◌, rules};
ghost use Rattle.numbers.specs.declared.number.TaskNo.{TaskNo};
ghost use Rattle.board.specs.Figure.{figure_of};
ghost use Rattle.board.specs.Viewed.{parts};
ghost use Rattle.policy.specs.Policies.{favour};
ghost use Rattle.kernel.specs.declared.call.Call.TheVariants.{Raise, Enter};
ghost use Rattle.kernel.specs.Afterwards.{SoundHistory};
ghost use Rattle.kernel.specs.Histories.{history};
ghost use Rattle.machine.specs.Machines.{ranks_of, state_of};
ghost use Rattle.outside.specs.Highest.{highest};
ghost use Rattle.outside.specs.HighestLemmas.{empty_none, none_empty, highest_member};

use board::figure::figure;
use board::nesting::NestingRule;
use board::plan::Plan;
use machine::machine::Machine;
use numbers::number::{LineNo, TaskNo};
use numbers::set::Set;
use policy::policies::{Favoured, Policy};

// The ready task with the highest number, whatever task is current.
#[derive(Clone, Copy)]
pub struct HighestNumber;

impl Policy for HighestNumber {
    ghost chosen = { λ _ s _. highest 16 s };

    ghost empty = { λ p s c small. (none_empty s small, λ e. ap (highest 16) e ∙ empty_none 16) };

    ghost member = { λ p s c small. highest_member s 16 };

    ghost settles = { Prim.search rules };

    fn choose(&self, ready: Set<TaskNo>, _current: TaskNo) -> Option<TaskNo> {
        (0..16).rev().map(TaskNo).find(|t| ready.contains(*t))
    }
}

// Even lines are urgent, odd ones are not.
#[derive(Clone, Copy)]
pub struct ByParity;

impl NestingRule for ByParity {
    ghost ranked = { λ _ i. i.0 % 2 * 7 };

    ghost bounded = { Prim.search rules };

    fn rank(&self, line: LineNo) -> u8 {
        line.0 % 2 * 7
    }
}

// What two favoured groups over any policy choose.
fn chosen_in_layers<P: Policy>(
    layers: &Favoured<Favoured<P>>,
    ready: Set<TaskNo>,
    current: TaskNo,
) -> Option<TaskNo>
    ensures { result ≡ favour (favour (P.Policy.chosen layers.now.below.below) layers.now.below.group.bits) layers.now.group.bits ready.bits current }
{
    layers.choose(ready, current)
}

// The figure of a plan under any rule.
fn figure_under<R: NestingRule>(plan: &Plan, rule: &R) -> u8
    ensures { result ≡ figure_of (R.NestingRule.ranked rule.now) (length (parts plan.now).levels) }
{
    figure(plan, rule)
}

// Calls made one by one, under any policy and rule: what holds after every list holds after these two.
fn raised_and_entered<P: Policy + Drop, N: NestingRule>(
    plan: Plan,
    policy: P,
    rule: &N,
    line: LineNo,
) -> Machine<P>
    ensures { SoundHistory (parts plan) (P.Policy.chosen policy) (ranks_of result) (history (parts plan) (P.Policy.chosen policy) (ranks_of result) (Raise line ∷ Enter line ∷ []) (state_of result)) }
{
    let mut machine = Machine::start(plan, policy, rule);
    machine.raise(line);
    machine.enter(line);
    let _ = machine.active();
    machine
}

#[cfg(test)]
mod tests {
    use super::*;
    use board::plan::Tables;
    use std::test::Fail;

    #[test]
    fn highest_number_wins_in_two_layers(rt: HostRuntime) {
        let layers = Favoured {
            group: Set::from_bits(0b0001),
            below: Favoured {
                group: Set::from_bits(0b0110),
                below: HighestNumber,
            },
        };
        let current = TaskNo(9);
        for (ready, task) in [(0b1111, 0), (0b1110, 2), (0b1000, 3), (0x8008, 15)] {
            let chosen = chosen_in_layers(&layers, Set::from_bits(ready), current);
            assert_eq!(rt; chosen, Some(TaskNo(task)));
        }
        assert!(rt; chosen_in_layers(&layers, Set::from_bits(0), current).is_none());
    }

    // Lines 0, 1 and 2 have ranks 0, 7 and 0; no lines have none.
    #[test]
    fn parity_has_two_ranks(rt: HostRuntime) -> Result<(), Fail> {
        let start = Set::from_bits(1);
        let favoured = Set::from_bits(0);
        let three = Plan::from_tables(&Tables {
            policy: 1,
            rule: 1,
            start,
            favoured,
            priorities: &[0],
            levels: &[5, 5, 5],
            wakes: &[],
        })?;
        assert_eq!(rt; figure_under(&three, &ByParity), 3);
        let none = Plan::from_tables(&Tables {
            policy: 1,
            rule: 1,
            start,
            favoured,
            priorities: &[0],
            levels: &[],
            wakes: &[],
        })?;
        assert_eq!(rt; figure_under(&none, &ByParity), 1);
        Ok(())
    }

    // By the plan's own policy task 0 would run, and by its own rule line 0 could not interrupt line 1.
    #[test]
    fn machine_under_both(rt: HostRuntime) -> Result<(), Fail> {
        let plan = Plan::from_tables(&Tables {
            policy: 1,
            rule: 1,
            start: Set::from_bits(7),
            favoured: Set::from_bits(0),
            priorities: &[9, 5, 1],
            levels: &[5, 5],
            wakes: &[],
        })?;
        let mut machine = Machine::start(plan, HighestNumber, &ByParity);
        for _ in 0..7 {
            assert_eq!(rt; machine.go(), (0, 1));
        }
        assert_eq!(rt; machine.go(), (0, 4));
        assert_eq!(rt; machine.raise(LineNo(1)), (100, 4));
        assert_eq!(rt; machine.enter(LineNo(1)), (0, 19));
        assert_eq!(rt; machine.raise(LineNo(0)), (100, 19));
        assert_eq!(rt; machine.enter(LineNo(0)), (0, 18));
        assert_eq!(rt; machine.suspended_count(), 2);
        assert_eq!(rt; machine.leave(), (0, 19));
        assert_eq!(rt; machine.leave(), (0, 4));
        Ok(())
    }
}
