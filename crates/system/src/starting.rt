// The start.
ghost use Rattle.std.specs.Prelude.{◌≡◌, ℕ, ◌-◌, ◌^◌, ◌<◌, ◌≤◌};
ghost use Rattle.numbers.specs.declared.number.LineNo.{LineNo};
ghost use Rattle.board.specs.Figure.{figure_of};
ghost use Rattle.board.specs.Viewed.{parts};
ghost use Rattle.kernel.specs.Rules.{lines};
ghost use Rattle.kernel.specs.States.{start};
ghost use Rattle.system.specs.Systems.{plan_of, ranks_of, state_of};
ghost use Rattle.system.specs.Views.{view};

use crate::ranks::RankTable;
use crate::stack::Stack;
use crate::state::State;
use crate::system::System;
use crate::table::{LineTable, TaskTable};
use board::nesting::NestingRule;
use board::plan::Plan;
use kernel::place::SchedulerPlace;
use kernel::routine::Routine;
use numbers::number::{LineNo, TaskNo};
use numbers::set::Set;

// The first lines.
fn all_below(count: u8) -> Set<LineNo>
    requires { count ≤ 16 }
    ensures { result.bits ≡ 2 ^ count - 1 }
{
    Set::from_bits(((1u32 << count) - 1) as u16)
}

impl State {
    fn start(plan: &Plan) -> State
        ensures { view result ≡ start (parts plan.now) }
    {
        State {
            enabled: all_below(plan.counts().lines),
            pending: Set::from_bits(0),
            delayed: true,
            request: false,
            active: Routine::Delayed,
            suspended: Stack::new(Routine::Task(TaskNo(0))),
            current: TaskNo(0),
            ready: plan.tables().start,
            posted: Set::from_bits(0),
            copied: Set::from_bits(0),
            chosen: None,
            tasks: TaskTable::new(),
            lines: LineTable::new(),
            scheduler: SchedulerPlace::Copying,
        }
    }
}

impl System {
    // A plan's state at the start, under a nesting rule. The rule is asked once for the rank of each line.
    pub fn start<N: NestingRule>(plan: Plan, rule: &N) -> System
        ensures state { state_of result ≡ start (parts plan) }
        ensures plan { plan_of result ≡ plan }
        ensures ranks { (i : LineNo) → i.0 < 16 → ranks_of result i ≡ N.NestingRule.ranked rule.now i }
        ensures figure { figure_of (ranks_of result) (lines (parts plan)) ≡ figure_of (N.NestingRule.ranked rule.now) (lines (parts plan)) }
    {
        let state = State::start(&plan);
        System {
            plan,
            ranks: RankTable::of_rule(rule),
            state,
        }
    }
}
