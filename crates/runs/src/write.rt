// Writing a run into a buffer.
ghost use Rattle.std.specs.Prelude.{◌≡◌, ◌+◌, ◌*◌, ◌≤◌, map, length, take, IfOk, IfErr, Ok, OnOk};
ghost use Rattle.board.specs.Refusing.{ComesFirst, checked};
ghost use Rattle.formats.specs.Written.{placed};
ghost use Rattle.runs.specs.Runs.{decode_run, fours, steps_tests};
ghost use Rattle.runs.specs.Steps.{call_of};
ghost use Rattle.runs.specs.Written.{TwoByteSets, left_run, write_tests, wrote_run};

use crate::fault::RunFault;
use crate::reader::refused_at;
use crate::step::Step;

fn check_steps(steps: &[Step]) -> Result<(), RunFault>
    requires { length steps.now ≤ 65535 }
    ensures answer { result ≡ checked (steps_tests 5 steps.now) }
    ensures sized { OnOk result (TwoByteSets steps.now) }
{
    for (k, step) in steps.iter().enumerate() {
        step.check()
            .map_err(|refusal| refused_at(5 + 4 * k, refusal))?;
    }
    Ok(())
}

// By place, since a proof knows nothing of the bytes that a loop over `chunks_exact_mut` writes.
fn put_steps(out: &mut [u8], steps: &[Step])
    requires { 5 + 4 * length steps.now ≤ length out.old }
    ensures { out.new ≡ placed out.old 5 (fours steps.now) }
{
    for (k, step) in steps.iter().enumerate() {
        let [low, high] = step.set.to_le_bytes();
        out[5 + 4 * k..9 + 4 * k].copy_from_slice(&[step.code, step.number, low, high]);
    }
}

// Puts a run of these steps at the front of the buffer and answers its size. What a reader would refuse is refused at
// the reader's place, and then a buffer that is too short; a refusal leaves the buffer as found, and what stands after the
// run stays.
pub fn write_run(steps: &[Step], out: &mut [u8]) -> Result<usize, RunFault>
    ensures answer { result ≡ wrote_run steps.now out.old }
    ensures buffer { out.new ≡ left_run (wrote_run steps.now out.old) steps.now out.old }
    ensures reads_back { IfOk result (λ size. decode_run (take size out.new) ≡ Ok (map call_of steps.now)) }
    ensures first { IfErr result (λ fault. ComesFirst (write_tests steps.now out.old) fault) }
{
    if steps.len() > 65_535 {
        return Err(RunFault::Many);
    }
    check_steps(steps)?;
    let size = 5 + 4 * steps.len();
    if out.len() < size {
        return Err(RunFault::Buffer(out.len()));
    }
    out[0..5].copy_from_slice(b"RUN\x01\x00");
    put_steps(out, steps);
    Ok(size)
}
