// The steps of a run, and the calls that they stand for.
ghost use Rattle.std.specs.Prelude.{◌≡◌, ◌<◌};
ghost use Rattle.board.specs.Refusing.{checked};
ghost use Rattle.runs.specs.Steps.{step_call, step_tests, uses_number};

use crate::fault::StepRefusal;
use kernel::call::Call;
use numbers::number::{EventNo, LineNo};
use numbers::set::Set;

// A step as it stands in a run, legal or not: a code from outside may be no call's.
#[derive(Clone, Copy, Debug, PartialEq, Eq)]
pub struct Step {
    pub code: u8,
    pub number: u8,
    pub set: u16,
}

impl Step {
    fn uses_number(&self) -> bool
        ensures { result ≡ uses_number self.now.code }
    {
        matches!(self.code, 1 | 2 | 7 | 9 | 10)
    }

    pub(crate) fn check(&self) -> Result<(), StepRefusal>
        ensures answer { result ≡ checked (step_tests self.now) }
        ensures sized { self.now.set < 65536 }
    {
        let [low, high] = self.set.to_le_bytes();
        if !(1..=10).contains(&self.code) {
            return Err(StepRefusal::Code);
        }
        if !self.uses_number() && self.number != 0 {
            return Err(StepRefusal::Number);
        }
        if self.code != 5 && low != 0 {
            return Err(StepRefusal::Low);
        }
        if self.code != 5 && high != 0 {
            return Err(StepRefusal::High);
        }
        Ok(())
    }
}

// The call that the step stands for.
impl TryFrom<Step> for Call {
    type Error = StepRefusal;

    ghost try_from_gives = { λ step answer. answer ≡ step_call step };

    fn try_from(step: Step) -> Result<Call, StepRefusal> {
        step.check()?;
        match step.code {
            1 => Ok(Call::Raise(LineNo(step.number))),
            2 => Ok(Call::Enter(LineNo(step.number))),
            3 => Ok(Call::Pend),
            4 => Ok(Call::Go),
            5 => Ok(Call::Signal(Set::from_bits(step.set))),
            6 => Ok(Call::Block),
            7 => Ok(Call::Post(EventNo(step.number))),
            8 => Ok(Call::Leave),
            9 => Ok(Call::Mask(LineNo(step.number))),
            10 => Ok(Call::Unmask(LineNo(step.number))),
            _ => Err(StepRefusal::Code),
        }
    }
}
