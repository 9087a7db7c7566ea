// Driving a plan through a run.
ghost use Rattle.std.specs.Prelude.{◌≡◌, ℕ, ◌*◌, ◌≤◌, List, ◌++◌, map, length, drop, None, Ok, OnErr, OnOk};
ghost use Rattle.board.specs.Planned.{plan_choice};
ghost use Rattle.board.specs.Plans.{Parts};
ghost use Rattle.board.specs.Ranks.{plan_rank};
ghost use Rattle.board.specs.Refusing.{first};
ghost use Rattle.board.specs.Viewed.{parts};
ghost use Rattle.formats.specs.Decode.{decode};
ghost use Rattle.kernel.specs.declared.call.Call.{Call};
ghost use Rattle.kernel.specs.Histories.{answers};
ghost use Rattle.machine.specs.Machines.{board_of, policy_of, ranks_of, state_of};
ghost use Rattle.runs.specs.Runs.{decode_run, run_tests, steps_in};
ghost use Rattle.runs.specs.Steps.{call_of};
ghost use Rattle.driver.specs.Driven.{SoundRun, driven, flat, left, run_answered};

use crate::fault::DriveFault;
use board::nesting::NestingRule;
use board::plan::Plan;
use formats::read::read_plan;
use machine::machine::Machine;
use policy::policies::Policy;
use runs::check::check_run;
use runs::fault::RunFault;
use runs::reader::RunReader;

// Makes the calls of a run that was checked, and writes the two numbers of each: by place, since a proof knows nothing
// of the bytes that a loop over `chunks_exact_mut` writes.
fn answer_steps<P: Policy>(
    machine: &mut Machine<P>,
    run: &[u8],
    count: usize,
    out: &mut [u8],
) -> Result<(), RunFault>
    requires good { first (run_tests run.now) ≡ None }
    requires steps { count ≡ length (steps_in (drop 5 run.now)) }
    requires room { 2 * count ≤ length out.old }
    ensures fine { result ≡ Ok tt }
    ensures out { out.new ≡ flat (answers (board_of machine.old) (P.Policy.chosen (policy_of machine.old)) (ranks_of machine.old) (map call_of (steps_in (drop 5 run.now))) (state_of machine.old)) ++ drop (2 * count) out.old }
{
    let mut reader = RunReader::open(run)?;
    for k in 0..count {
        let Some(call) = reader.next()? else {
            return Ok(());
        };
        let (answer, active) = machine.apply(call);
        out[2 * k] = answer;
        out[2 * k + 1] = active;
    }
    Ok(())
}

// Drives a plan through a run, under any policy and nesting rule.
fn drive_run<P: Policy + Drop, N: NestingRule>(
    plan: Plan,
    policy: P,
    rule: &N,
    run: &[u8],
    out: &mut [u8],
) -> Result<usize, DriveFault>
    ensures answer { left result out.new ≡ run_answered (parts plan) (P.Policy.chosen policy) (N.NestingRule.ranked rule.now) (decode_run run.now) out.old }
    ensures kept { OnErr result (out.new ≡ out.old) }
    ensures sound { OnOk result ((calls : List Call) → decode_run run.now ≡ Ok calls → SoundRun (parts plan) (P.Policy.chosen policy) (N.NestingRule.ranked rule.now) calls out.new) }
{
    let count = check_run(run)?;
    if out.len() / 2 < count {
        return Err(DriveFault::Buffer(out.len()));
    }
    let mut machine = Machine::start(plan, policy, rule);
    answer_steps(&mut machine, run, count, out)?;
    Ok(count)
}

// Drives a plan through the run that follows it: writes the two numbers of each step as two bytes, and answers the
// number of steps. A refusal leaves the buffer as found; the bytes after the answers stay.
pub fn drive(bytes: &[u8], out: &mut [u8]) -> Result<usize, DriveFault>
    ensures answer { left result out.new ≡ driven bytes.now out.old }
    ensures kept { OnErr result (out.new ≡ out.old) }
    ensures sound { OnOk result ((p : Parts) (rest : List ℕ) (calls : List Call) → decode bytes.now ≡ Ok (p, rest) → decode_run rest ≡ Ok calls → SoundRun p (plan_choice p) (plan_rank p) calls out.new) }
{
    let (plan, rest) = read_plan(bytes)?;
    drive_run(plan, plan.policy(), &plan.nesting(), rest, out)
}

#[cfg(test)]
mod tests {
    use crate::driving::drive;
    use std::test::Fail;

    // A board with two tasks, one line and one event: the scheduler's first pass, then an interrupt that posts the
    // event.
    const BOARD: [u8; 80] =
        *b"PLN\x01\x00\x02\x01\x01\x01\x01\x01\x00\x00\x00\x0A\x14\x40\x02\x00RUN\x01\x00\x04\x00\x00\x00\x04\x00\x00\x00\x04\x00\x00\x00\x04\x00\x00\x00\x04\x00\x00\x00\x04\x00\x00\x00\x04\x00\x00\x00\x04\x00\x00\x00\x01\x00\x00\x00\x02\x00\x00\x00\x07\x00\x00\x00\x08\x00\x00\x00\x04\x00\x00\x00\x08\x00\x00\x00";

    #[test]
    fn an_interrupt_posts_an_event(rt: HostRuntime) -> Result<(), Fail> {
        let mut answers = [7; 29];
        let steps = drive(&BOARD, &mut answers)?;
        assert_eq!(rt; steps, 14);
        let expected = [
            0, 1, 0, 1, 0, 1, 0, 1, 0, 1, 0, 1, 0, 1, 0, 2, 100, 2, 0, 18, 0, 18, 19, 18, 0, 18, 0,
            1, 7,
        ];
        assert_eq!(rt; answers.as_slice(), expected.as_slice());
        Ok(())
    }
}
