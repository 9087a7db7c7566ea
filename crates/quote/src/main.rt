// Reads a plan from standard input and prints what a board's maker orders memory by.
#![tactic(auto)]

use report::quote::{LIMIT, quote_plan};
use std::io;
use std::io::{Read, Write};
use std::process::ExitCode;

// One byte more than a program takes, so that longer input is seen to be longer.
const MOST: u64 = LIMIT as u64 + 1;

// A refusal ends the program with status 1 and says nothing on standard error.
fn main(rt: HostRuntime) -> io::Result<ExitCode> {
    let mut input = Vec::new(rt.alloc());
    rt.stdin().take(MOST).read_to_end(&mut input)?;
    match quote_plan(input.as_slice()) {
        Ok(quote) => {
            rt.stdout().write_all(quote.text().as_bytes())?;
            Ok(ExitCode::SUCCESS)
        }
        Err(fault) => {
            rt.stdout().write_all(fault.line().as_bytes())?;
            Ok(ExitCode::FAILURE)
        }
    }
}
