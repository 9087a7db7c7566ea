// Why a drive is refused: the lower fault whole.
ghost use Rattle.std.specs.Prelude.{◌≡◌};
ghost use Rattle.driver.specs.declared.fault.DriveFault.TheVariants.{Plan, Run};
ghost use Rattle.driver.specs.Faults.{drive_refusal};

use formats::fault::{Layer, PlanFault, Refusal};
use runs::fault::RunFault;
use thiserror::Error;

#[derive(Clone, Copy, Debug, PartialEq, Eq, Error)]
pub enum DriveFault {
    #[error("{0}")]
    Plan(PlanFault),
    #[error("{0}")]
    Run(RunFault),
    // with the buffer's length
    #[error("a buffer of {0} bytes is too short for the answers")]
    Buffer(usize),
}

// By hand, since clauses name what it gives, and a derived one has no contract.
impl From<PlanFault> for DriveFault {
    ghost from_gives = { λ lower fault. fault ≡ Plan lower };

    fn from(lower: PlanFault) -> DriveFault {
        DriveFault::Plan(lower)
    }
}

impl From<RunFault> for DriveFault {
    ghost from_gives = { λ lower fault. fault ≡ Run lower };

    fn from(lower: RunFault) -> DriveFault {
        DriveFault::Run(lower)
    }
}

impl DriveFault {
    // Number, place and layer; those of the plan or of the run are kept.
    pub fn refusal(&self) -> Refusal
        ensures { result ≡ drive_refusal self.now }
    {
        match self {
            DriveFault::Plan(fault) => fault.refusal(),
            DriveFault::Run(fault) => fault.refusal(),
            DriveFault::Buffer(length) => Refusal {
                number: 10,
                place: *length,
                layer: Layer::Drive,
            },
        }
    }
}
