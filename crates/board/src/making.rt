// A plan from tables.
ghost use Rattle.std.specs.Prelude.{◌≡◌, ◌++◌};
ghost use Rattle.board.specs.Refusing.{checked};
ghost use Rattle.board.specs.Plans.{count_tests, number_tests, planned, set_tests};
ghost use Rattle.board.specs.Viewed.{Counted, counted, given, made};

use crate::kinds::{PolicyKind, RankRule};
use crate::plan::{Counts, Plan, Tables};
use crate::refusal::PlanRefusal;
use crate::table::Table;
use numbers::number::{EventNo, TaskNo};
use numbers::set::Set;

// The counts, or the refusal of the first that is out of range.
fn check_counts(tasks: usize, lines: usize, events: usize) -> Result<Counts, PlanRefusal>
    ensures { result ≡ counted tasks lines events }
{
    if !(1..=16).contains(&tasks) {
        return Err(PlanRefusal::TaskCount);
    }
    if lines > 16 {
        return Err(PlanRefusal::LineCount);
    }
    if events > 16 {
        return Err(PlanRefusal::EventCount);
    }
    Ok(Counts {
        tasks: tasks as u8,
        lines: lines as u8,
        events: events as u8,
    })
}

// Refuses the first count that is out of range, and then a number that names no policy or no nesting rule: numbers as they
// come from outside.
pub fn check_numbers(counts: Counts, policy: u8, rule: u8) -> Result<(), PlanRefusal>
    ensures { result ≡ checked (count_tests counts.tasks counts.lines counts.events ++ number_tests policy rule) }
{
    check_counts(
        counts.tasks as usize,
        counts.lines as usize,
        counts.events as usize,
    )?;
    PolicyKind::try_from(policy)?;
    RankRule::try_from(rule)?;
    Ok(())
}

// Refuses the first set that holds a task that the plan lacks.
fn check_sets(tables: &Tables, counts: Counts) -> Result<(), PlanRefusal>
    requires { Counted (given tables.now) counts }
    ensures { result ≡ checked (set_tests (given tables.now)) }
{
    let Counts { tasks, lines, .. } = counts;
    if !tables.start.within(tasks) {
        return Err(PlanRefusal::StartSet);
    }
    if !tables.favoured.within(tasks) {
        return Err(PlanRefusal::FavouredSet);
    }
    match tables.wakes.iter().position(|wake| !wake.within(tasks)) {
        Some(event) => Err(PlanRefusal::WakeSet {
            tasks,
            lines,
            event: EventNo(event as u8),
        }),
        None => Ok(()),
    }
}

impl Plan {
    // The plan of these tables, or what is wrong with them first: a count, a number or a set.
    pub fn from_tables(tables: &Tables) -> Result<Plan, PlanRefusal>
        ensures { made result ≡ planned (given tables.now) }
    {
        let counts = check_counts(
            tables.priorities.len(),
            tables.levels.len(),
            tables.wakes.len(),
        )?;
        let policy = PolicyKind::try_from(tables.policy)?;
        let rule = RankRule::try_from(tables.rule)?;
        check_sets(tables, counts)?;
        Ok(Plan {
            policy,
            rule,
            start: tables.start,
            favoured: tables.favoured,
            priorities: Table::new(tables.priorities, 0),
            levels: Table::new(tables.levels, 0),
            wakes: Table::new(tables.wakes, Set::from_bits(0)),
        })
    }
}
