// The worked cases: one list is shown to follow from the rules, and a few are run through the calls.
#![tactic(auto)]

mod shown;

use board::refusal::PlanRefusal;
use formats::fault::{Layer, PlanFault, Refusal};
use formats::read::read_plan;
use numbers::number::EventNo;
use report::fault::ProgramFault;
use shown::worked_cases;
use std::io;
use std::io::Write;

const BOARD: [u8; 19] = [
    0x50, 0x4C, 0x4E, 1, 0, 2, 1, 1, 1, 1, 1, 0, 0, 0, 10, 20, 64, 2, 0,
];

// How many bytes are left after the plan.
fn left_after(bytes: &[u8]) -> Result<usize, PlanFault> {
    let (_, rest) = read_plan(bytes)?;
    Ok(rest.len())
}

// The board with bytes 5 and 10 as given: the refusal's number and place, or 0 and how many bytes are left.
fn show(rt: &impl Print, tasks: u8, start: u8) -> io::Result<()> {
    let mut bytes = BOARD;
    bytes[5] = tasks;
    bytes[10] = start;
    let (number, place) = match left_after(&bytes).map_err(|fault| fault.refusal()) {
        Ok(left) => (0, left),
        Err(Refusal { number, place, .. }) => (number, place),
    };
    println!(rt; "tasks {tasks} start {start} refused {number} {place}")
}

// The lines by which programs tell faults.
fn show_lines(rt: &HostRuntime) -> anyhow::Result<()> {
    let wake = PlanRefusal::WakeSet {
        tasks: 2,
        lines: 1,
        event: EventNo(3),
    };
    for fault in [
        ProgramFault::TooLong,
        ProgramFault::Plan(PlanFault::Short(18)),
        ProgramFault::Plan(PlanFault::Version),
        ProgramFault::Plan(PlanFault::Refused(PlanRefusal::RuleNumber)),
        ProgramFault::Plan(PlanFault::Refused(wake)),
        ProgramFault::Plan(PlanFault::Buffer(7)),
    ] {
        rt.stdout().write_all(fault.line().as_bytes())?;
    }
    Ok(())
}

fn main(rt: HostRuntime) -> anyhow::Result<()> {
    let count = worked_cases();
    println!(rt; "worked cases {count}")?;
    for (tasks, start) in [(2, 1), (0, 1), (17, 1), (2, 4), (16, 255)] {
        show(&rt, tasks, start)?;
    }
    show_lines(&rt)
}
