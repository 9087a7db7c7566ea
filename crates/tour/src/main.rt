// Fourteen calls on a small board: the scheduler's first pass, then an interrupt that posts an event.
#![tactic(auto)]

use formats::fault::PlanFault;
use formats::read::read_plan;
use kernel::call::Call;
use machine::listing::{ShortBuffer, apply_from_start};
use numbers::number::{EventNo, LineNo};
use std::io;
use thiserror::Error;

// Why the program ends with status 1. No `anyhow::Error`, which would tell the error on standard error in other words.
#[derive(Debug, Drop, Error)]
#[error(transparent)]
enum Stop {
    Io(#[from] io::Error),
    Plan(#[from] PlanFault),
    Buffer(#[from] ShortBuffer),
}

// Two tasks of the priorities 10 and 20, a line of level 64, an event that wakes task 1; task 0 is ready.
const BOARD: [u8; 19] = [
    0x50, 0x4C, 0x4E, 1, 0, 2, 1, 1, 1, 1, 1, 0, 0, 0, 10, 20, 64, 2, 0,
];

fn main(rt: HostRuntime) -> Result<(), Stop> {
    let (plan, _) = read_plan(&BOARD)?;
    let calls = [
        Call::Go,
        Call::Go,
        Call::Go,
        Call::Go,
        Call::Go,
        Call::Go,
        Call::Go,
        Call::Go,
        Call::Raise(LineNo(0)),
        Call::Enter(LineNo(0)),
        Call::Post(EventNo(0)),
        Call::Leave,
        Call::Go,
        Call::Leave,
    ];
    let mut out = [(0, 0); 14];
    apply_from_start(plan, plan.policy(), &plan.nesting(), &calls, &mut out)?;
    for (call, (answer, active)) in calls.iter().zip(&out) {
        println!(rt; "{call}: {answer} {active}")?;
    }
    Ok(())
}
