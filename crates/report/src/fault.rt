// Why a program refuses its input.
ghost use Rattle.std.specs.Prelude.{◌≡◌};
ghost use Rattle.report.specs.declared.fault.ProgramFault.TheVariants.{Drive, Plan};
ghost use Rattle.report.specs.Faults.{program_refusal, refusal_line};

use driver::fault::DriveFault;
use formats::fault::{Layer, PlanFault, Refusal};
use text::text::Text;
use thiserror::Error;

#[derive(Clone, Copy, Debug, PartialEq, Eq, Error)]
pub enum ProgramFault {
    #[error("a program takes at most 65,536 bytes")]
    TooLong,
    // what the plan is refused for
    #[error("{0}")]
    Plan(PlanFault),
    // what the drive is refused for
    #[error("{0}")]
    Drive(DriveFault),
}

// By hand, since clauses name what it gives, and a derived one has no contract.
impl From<PlanFault> for ProgramFault {
    ghost from_gives = { λ lower fault. fault ≡ Plan lower };

    fn from(lower: PlanFault) -> ProgramFault {
        ProgramFault::Plan(lower)
    }
}

impl From<DriveFault> for ProgramFault {
    ghost from_gives = { λ lower fault. fault ≡ Drive lower };

    fn from(lower: DriveFault) -> ProgramFault {
        ProgramFault::Drive(lower)
    }
}

impl ProgramFault {
    pub fn refusal(&self) -> Refusal
        ensures { result ≡ program_refusal self.now }
    {
        match self {
            ProgramFault::TooLong => Refusal {
                number: 21,
                place: 65_536,
                layer: Layer::Program,
            },
            ProgramFault::Plan(fault) => fault.refusal(),
            ProgramFault::Drive(fault) => fault.refusal(),
        }
    }

    // The line that a program prints: `refused`, the number, the place and the layer. No `Display`: its contract allows
    // an error at any time, and a line can't fail.
    pub fn line(&self) -> Text
        ensures { result ≡ refusal_line self.now }
    {
        let refusal = self.refusal();
        let mut text = Text::new();
        text.word("refused ");
        text.number(refusal.number as u64);
        text.word(" ");
        text.number(refusal.place as u64);
        text.word(" ");
        text.number(refusal.layer.number() as u64);
        text.word("\n");
        text
    }
}
