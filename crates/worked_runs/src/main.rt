// Runs for each refusal of each call, in the order of the tests: the last call of each run is refused, and where a
// later test would find something too, the first one wins. Then runs whose last call is accepted, and refused questions.
#![tactic(auto)]

use board::choosing::PlanPolicy;
use board::plan::{Plan, Tables};
use board::refusal::PlanRefusal;
use kernel::call::Call;
use machine::asking::Unknown;
use machine::listing::apply_from_start;
use machine::machine::Machine;
use numbers::number::{EventNo, LineNo, TaskNo};
use numbers::set::Set;
use policy::policies::Favoured;
use std::io;
use thiserror::Error;

// Why the program ends with status 1. No `anyhow::Error`, which would tell the error on standard error in other words.
#[derive(Debug, Drop, Error)]
#[error(transparent)]
enum Stop {
    Io(#[from] io::Error),
    Plan(#[from] PlanRefusal),
}

fn raise(line: u8) -> Call {
    Call::Raise(LineNo(line))
}

fn enter(line: u8) -> Call {
    Call::Enter(LineNo(line))
}

fn mask(line: u8) -> Call {
    Call::Mask(LineNo(line))
}

fn unmask(line: u8) -> Call {
    Call::Unmask(LineNo(line))
}

fn post(event: u8) -> Call {
    Call::Post(EventNo(event))
}

fn signal(set: u16) -> Call {
    Call::Signal(Set::from_bits(set))
}

// The machine of the plan. Eight steps of the scheduler come first if task 0 is to be running.
fn started(plan: &Plan, running: bool) -> Machine<Favoured<PlanPolicy>> {
    let mut machine = Machine::start(*plan, plan.policy(), &plan.nesting());
    if running {
        for _ in 0..8 {
            machine.go();
        }
    }
    machine
}

// The two numbers of the last call, as the machine answers them.
fn last(plan: &Plan, running: bool, calls: &[Call]) -> (u8, u8) {
    let mut machine = started(plan, running);
    let mut numbers = (0, 0);
    for call in calls {
        numbers = machine.apply(*call);
    }
    numbers
}

// A run: its name in the output, whether task 0 is running when its calls come, and the calls.
type Run<'a> = (&'a str, bool, &'a [Call]);

// The runs, each with the two numbers of its last call: the refusals of each call, and then accepted calls.
fn show_runs(rt: &impl Print, plan: &Plan) -> io::Result<()> {
    let runs: &[Run] = &[
        ("raise", false, &[raise(3)]),
        ("enter", false, &[enter(3)]),
        ("enter", false, &[enter(0)]),
        ("enter", true, &[mask(0), enter(0)]),
        ("enter", true, &[raise(0), mask(0), enter(0)]),
        (
            "enter",
            false,
            &[raise(0), enter(0), raise(0), mask(0), enter(0)],
        ),
        ("enter", false, &[raise(0), enter(0), raise(0), enter(0)]),
        (
            "enter",
            false,
            &[raise(1), enter(1), raise(0), enter(0), raise(1), enter(1)],
        ),
        ("enter", false, &[raise(0), raise(1), enter(0), enter(1)]),
        ("enter", false, &[raise(0), raise(2), enter(0), enter(2)]),
        ("pend", false, &[Call::Pend]),
        ("pend", true, &[Call::Block, Call::Pend]),
        ("pend", true, &[signal(2), Call::Go, Call::Go, Call::Pend]),
        (
            "pend",
            true,
            &[
                signal(2),
                Call::Go,
                Call::Go,
                raise(0),
                enter(0),
                Call::Pend,
            ],
        ),
        (
            "pend",
            false,
            &[raise(0), enter(0), post(0), Call::Go, Call::Pend],
        ),
        (
            "pend",
            false,
            &[
                raise(0),
                enter(0),
                post(0),
                Call::Go,
                Call::Leave,
                Call::Pend,
            ],
        ),
        ("go", true, &[Call::Go]),
        ("go", false, &[raise(0), enter(0), Call::Go]),
        ("signal", false, &[signal(4)]),
        ("signal", false, &[raise(0), enter(0), signal(1)]),
        ("signal", true, &[signal(2), signal(4)]),
        ("signal", true, &[signal(4)]),
        ("block", false, &[Call::Block]),
        ("block", true, &[Call::Block, Call::Block]),
        ("post", false, &[post(1)]),
        ("post", true, &[post(0)]),
        ("post", false, &[raise(0), enter(0), post(0), post(1)]),
        ("post", false, &[raise(0), enter(0), post(1)]),
        ("leave", false, &[Call::Leave]),
        ("leave", false, &[raise(0), enter(0), post(0), Call::Leave]),
        ("mask", false, &[mask(3)]),
        ("mask", true, &[Call::Block, mask(3)]),
        ("mask", false, &[raise(0), enter(0), post(0), mask(3)]),
        ("mask", true, &[mask(3)]),
        ("unmask", false, &[unmask(3)]),
        ("unmask", true, &[Call::Block, unmask(3)]),
        ("unmask", false, &[raise(0), enter(0), post(0), unmask(3)]),
        ("unmask", false, &[raise(0), enter(0), unmask(3)]),
        ("merged", false, &[raise(0), raise(0)]),
        ("unmasked", true, &[mask(0), raise(0), unmask(0), enter(0)]),
        (
            "pended",
            true,
            &[signal(2), Call::Go, Call::Go, Call::Go, Call::Pend],
        ),
        ("blocked", true, &[Call::Block, Call::Go, Call::Go]),
    ];
    for (name, running, calls) in runs {
        let (answer, active) = last(plan, *running, calls);
        println!(rt; "{name} {answer} {active}")?;
    }
    Ok(())
}

// As it is printed: 0 where nothing is refused.
fn number_of<T: Drop>(answer: Result<T, Unknown>) -> u8 {
    answer.err().map_or(0, |unknown| unknown.number())
}

// Nobody is ready, so the direct scheduler begins anew; what the plan lacks is refused.
fn questions(rt: &impl Print, plan: &Plan) -> io::Result<()> {
    let mut machine = started(plan, true);
    machine.block();
    for _ in 0..5 {
        machine.go();
    }
    let before = machine.scheduler_place().number();
    machine.go();
    let after = machine.scheduler_place().number();
    let lines = (
        number_of(machine.enabled(LineNo(3))),
        number_of(machine.pending(LineNo(3))),
    );
    let tasks = (
        number_of(machine.ready(TaskNo(2))),
        number_of(machine.task(TaskNo(2))),
    );
    let events = (
        number_of(machine.posted_event(EventNo(1))),
        number_of(machine.copied_event(EventNo(1))),
    );
    let routines = (
        number_of(machine.line_place(LineNo(3))),
        number_of(machine.suspended(1)),
    );
    for (name, (first, second)) in [
        ("scheduler", (before, after)),
        ("lines", lines),
        ("tasks", tasks),
        ("events", events),
        ("routines", routines),
    ] {
        println!(rt; "{name} {first} {second}")?;
    }
    Ok(())
}

// A buffer for one call and a list of two: the number as it is printed, and the buffer as found.
fn short_buffer(rt: &impl Print, plan: &Plan) -> io::Result<()> {
    let mut out = [(7, 7); 1];
    let calls = [Call::Go, Call::Go];
    let started = apply_from_start(*plan, plan.policy(), &plan.nesting(), &calls, &mut out);
    let number = started.err().map_or(0, |short| short.number());
    let [(_, active)] = out;
    println!(rt; "short {number} {active}")
}

// Two tasks, three lines of the ranks 2, 3 and 2, and one event.
fn main(rt: HostRuntime) -> Result<(), Stop> {
    let plan = Plan::from_tables(&Tables {
        policy: 1,
        rule: 1,
        start: Set::from_bits(1),
        favoured: Set::from_bits(0),
        priorities: &[10, 20],
        levels: &[64, 96, 70],
        wakes: &[Set::from_bits(2)],
    })?;
    show_runs(&rt, &plan)?;
    questions(&rt, &plan)?;
    short_buffer(&rt, &plan)?;
    Ok(())
}
