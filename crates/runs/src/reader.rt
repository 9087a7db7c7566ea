// A reader over the lent bytes of a run, which hands out one step at a time.
ghost use Rattle.std.specs.Prelude.{◌≡◌, ◌+◌, ◌^◌, ◌<◌};
ghost use Rattle.board.specs.Refusing.{checked};
ghost use Rattle.runs.specs.Readers.{Opened};
ghost use Rattle.runs.specs.Runs.{next_call, next_place, opening_tests, refused_at};

use crate::fault::{RunFault, StepRefusal};
use crate::step::Step;
use kernel::call::Call;

// No iterator: a fault leaves the reader at its step, so that one would never end.
#[derive(Clone, Copy)]
pub struct RunReader<'a> {
    pub(crate) bytes: &'a [u8],
    // of the next step
    pub(crate) place: usize,
}

// As a plan's head is checked, with other constants and faults of another type: one function would take them all as
// parameters.
fn check_opening(bytes: &[u8]) -> Result<(), RunFault>
    ensures { result ≡ checked (opening_tests bytes.now) }
{
    let length = bytes.len();
    if length < 5 {
        return Err(RunFault::Short(length));
    }
    if !bytes.starts_with(b"RUN") {
        return Err(RunFault::Mark);
    }
    if u16::from_le_bytes([bytes[3], bytes[4]]) != 1 {
        return Err(RunFault::Version);
    }
    let cut = (length - 5) % 4;
    if cut != 0 {
        return Err(RunFault::Cut(length - cut));
    }
    if length > 262_145 {
        return Err(RunFault::Many);
    }
    Ok(())
}

// A step's refusal, by the place of its first byte.
pub(crate) fn refused_at(place: usize, refusal: StepRefusal) -> RunFault
    requires { place + 3 < 2 ^ 64 }
    ensures { result ≡ refused_at place refusal }
{
    match refusal {
        StepRefusal::Code => RunFault::Code(place),
        StepRefusal::Number => RunFault::Unused(place + 1),
        StepRefusal::Low => RunFault::Unused(place + 2),
        StepRefusal::High => RunFault::Unused(place + 3),
    }
}

impl<'a> RunReader<'a> {
    // A reader at the first step.
    pub fn open(bytes: &'a [u8]) -> Result<RunReader<'a>, RunFault>
        ensures { Opened bytes.now result }
    {
        check_opening(bytes)?;
        Ok(RunReader { bytes, place: 5 })
    }

    // The call of the next step, or none at the end. A fault and the end leave the reader where it is.
    pub fn next(&mut self) -> Result<Option<Call>, RunFault>
        ensures answer { result ≡ next_call self.old.bytes.now self.old.place }
        ensures place { self.new.place ≡ next_place self.old.place result }
        ensures bytes { self.new.bytes.now ≡ self.old.bytes.now }
    {
        let place = self.place;
        // by index: each pass over a run takes fewer instructions so than by a pattern on the bytes from the place on
        let length = self.bytes.len();
        if length < 4 || place > length - 4 {
            return Ok(None);
        }
        let step = Step {
            code: self.bytes[place],
            number: self.bytes[place + 1],
            set: u16::from_le_bytes([self.bytes[place + 2], self.bytes[place + 3]]),
        };
        let call = Call::try_from(step).map_err(|refusal| refused_at(place, refusal))?;
        self.place = place + 4;
        Ok(Some(call))
    }
}
