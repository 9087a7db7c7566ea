// Reads a plan followed by a run from standard input, and prints each step with its two numbers.
#![tactic(auto)]

use formats::read::read_plan;
use report::quote::LIMIT;
use runs::reader::RunReader;
use std::io::{Read, Write};
use std::process::ExitCode;
use transcript::drive::{drive_input, drive_row};

// One byte more than a program takes, so that longer input is seen to be longer.
const MOST: u64 = LIMIT as u64 + 1;

// The steps of the input with their answers, row by row.
fn show(rt: &HostRuntime, input: &[u8], steps: usize, answers: &[u8]) -> anyhow::Result<()> {
    rt.stdout().write_all(b"step code answer active\n")?;
    let (_, run) = read_plan(input)?;
    let mut reader = RunReader::open(run)?;
    for (ordinal, numbers) in answers.chunks_exact(2).take(steps).enumerate() {
        if let (Some(call), [answer, active]) = (reader.next()?, numbers) {
            let row = drive_row(ordinal as u64, call, *answer, *active);
            rt.stdout().write_all(row.as_bytes())?;
        }
    }
    Ok(())
}

// A refusal ends the program with status 1 and says nothing on standard error.
fn main(rt: HostRuntime) -> anyhow::Result<ExitCode> {
    let mut input = Vec::new(rt.alloc());
    rt.stdin().take(MOST).read_to_end(&mut input)?;
    // two bytes for each step that the longest input can have
    let mut answers = [0; 32_768];
    match drive_input(input.as_slice(), &mut answers) {
        Ok(steps) => {
            show(&rt, input.as_slice(), steps, &answers)?;
            Ok(ExitCode::SUCCESS)
        }
        Err(fault) => {
            rt.stdout().write_all(fault.line().as_bytes())?;
            Ok(ExitCode::FAILURE)
        }
    }
}
