// The rows of a drive.
ghost use Rattle.std.specs.Prelude.{◌≡◌, OnErr};
ghost use Rattle.transcript.specs.Inputs.{driven_input, left_input};
ghost use Rattle.transcript.specs.Rows.{step_row};

use driver::driving::drive;
use kernel::call::Call;
use report::fault::ProgramFault;
use report::quote::LIMIT;
use text::text::Text;

// The line of a step: its ordinal, its code, and its two numbers. No `Display`: its contract allows an error at any
// time, and a line can't fail.
pub fn drive_row(ordinal: u64, call: Call, answer: u8, active: u8) -> Text
    ensures { result ≡ step_row ordinal call answer active }
{
    let mut text = Text::new();
    text.number(ordinal);
    text.word(" ");
    text.number(call.number() as u64);
    text.word(" ");
    text.number(answer as u64);
    text.word(" ");
    text.number(active as u64);
    text.word("\n");
    text
}

// Drives a program's input: at most 65,536 bytes, a plan followed by a run. A refusal leaves the buffer as found.
pub fn drive_input(bytes: &[u8], out: &mut [u8]) -> Result<usize, ProgramFault>
    ensures answer { left_input result out.new ≡ driven_input bytes.now out.old }
    ensures kept { OnErr result (out.new ≡ out.old) }
{
    if bytes.len() > LIMIT {
        return Err(ProgramFault::TooLong);
    }
    Ok(drive(bytes, out)?)
}
