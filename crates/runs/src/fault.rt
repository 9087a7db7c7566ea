// Why a step, run bytes or a buffer are refused.
ghost use Rattle.std.specs.Prelude.{◌≡◌};
ghost use Rattle.runs.specs.Faults.{run_number, run_place, run_refusal};

use formats::fault::{Layer, Refusal};
use thiserror::Error;

// The first byte of a step that is refused: an unknown code, or a byte that the code doesn't use and that is not zero.
#[derive(Clone, Copy, Debug, PartialEq, Eq, Error)]
pub enum StepRefusal {
    #[error("no call has this code")]
    Code,
    #[error("the call uses no number, and the number is not zero")]
    Number,
    #[error("the call uses no set, and the set's low byte is not zero")]
    Low,
    #[error("the call uses no set, and the set's high byte is not zero")]
    High,
}

#[derive(Clone, Copy, Debug, PartialEq, Eq, Error)]
pub enum RunFault {
    // with the number of bytes
    #[error("{0} bytes are fewer than the head has")]
    Short(usize),
    #[error("a run begins with the mark RUN")]
    Mark,
    #[error("the version is not 1")]
    Version,
    // with the place of the step's first byte
    #[error("the last step, at byte {0}, is cut")]
    Cut(usize),
    #[error("a run has at most 65,535 steps")]
    Many,
    // with the code's place
    #[error("no call has the code at byte {0}")]
    Code(usize),
    // with the byte's place
    #[error("the step doesn't use byte {0}, and the byte is not zero")]
    Unused(usize),
    // with the buffer's length
    #[error("a buffer of {0} bytes is too short for the run")]
    Buffer(usize),
}

impl RunFault {
    // Number, place and layer.
    pub fn refusal(&self) -> Refusal
        ensures { result ≡ run_refusal self.now }
    {
        Refusal {
            number: self.number(),
            place: self.place(),
            layer: Layer::Run,
        }
    }

    // As it is printed.
    fn number(&self) -> u8
        ensures { result ≡ run_number self.now }
    {
        match self {
            RunFault::Short(_) | RunFault::Cut(_) => 1,
            RunFault::Mark => 2,
            RunFault::Version => 3,
            RunFault::Code(_) => 7,
            RunFault::Unused(_) => 8,
            RunFault::Many => 9,
            RunFault::Buffer(_) => 10,
        }
    }

    // The place in the run's bytes, or the length that is too short.
    fn place(&self) -> usize
        ensures { result ≡ run_place self.now }
    {
        match self {
            RunFault::Mark => 0,
            RunFault::Version => 3,
            RunFault::Many => 262_145,
            RunFault::Short(place)
            | RunFault::Cut(place)
            | RunFault::Code(place)
            | RunFault::Unused(place)
            | RunFault::Buffer(place) => *place,
        }
    }
}
