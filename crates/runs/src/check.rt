// Reading a run to its end.
ghost use Rattle.std.specs.Prelude.{◌≡◌, ◌≤◌, List, length, IfErr, Ok, OnErr, OnOk, ◌≢◌};
ghost use Rattle.board.specs.Refusing.{ComesFirst};
ghost use Rattle.kernel.specs.declared.call.Call.{Call};
ghost use Rattle.runs.specs.Runs.{counted, decode_run, form_of, run_tests};

use crate::fault::RunFault;
use crate::reader::RunReader;

// Reads a run to its end, and answers the number of its steps.
pub fn check_run(bytes: &[u8]) -> Result<usize, RunFault>
    ensures answer { result ≡ counted (decode_run bytes.now) }
    ensures one_form { OnOk result ((calls : List Call) → decode_run bytes.now ≡ Ok calls → form_of calls ≡ bytes.now) }
    ensures first { IfErr result (λ fault. ComesFirst (run_tests bytes.now) fault) }
    ensures no_form { OnErr result ((calls : List Call) → length calls ≤ 65535 → form_of calls ≢ bytes.now) }
{
    let mut reader = RunReader::open(bytes)?;
    let steps = (bytes.len() - 5) / 4;
    for _ in 0..steps {
        reader.next()?;
    }
    Ok(steps)
}
