// Why plan bytes, tables or a buffer are refused.
ghost use Rattle.std.specs.Prelude.{◌≡◌};
ghost use Rattle.formats.specs.declared.fault.PlanFault.TheVariants.{Refused};
ghost use Rattle.formats.specs.Faults.{layer_number, plan_number, plan_place, plan_refusal};

use board::refusal::PlanRefusal;
use thiserror::Error;

#[derive(Clone, Copy, Debug, PartialEq, Eq, Error)]
pub enum PlanFault {
    // with the number of bytes
    #[error("{0} bytes are fewer than the plan has")]
    Short(usize),
    #[error("a plan begins with the mark PLN")]
    Mark,
    #[error("the version is not 1")]
    Version,
    // what the tables are refused for
    #[error("{0}")]
    Refused(PlanRefusal),
    // with the buffer's length
    #[error("a buffer of {0} bytes is too short for the plan")]
    Buffer(usize),
}

// By hand, since clauses name what it gives, and a derived one has no contract.
impl From<PlanRefusal> for PlanFault {
    ghost from_gives = { λ refusal fault. fault ≡ Refused refusal };

    fn from(refusal: PlanRefusal) -> PlanFault {
        PlanFault::Refused(refusal)
    }
}

// What refuses.
#[derive(Clone, Copy, Debug, PartialEq, Eq)]
pub enum Layer {
    Plan = 1,
    Run = 2,
    Drive = 3,
    Program = 4,
}

// As the numbers of the kernel's places: a cast, which a `From` would only wrap.
impl Layer {
    pub fn number(self) -> u8
        ensures { result ≡ layer_number self }
    {
        self as u8
    }
}

// How a fault is told: its number, its place in the part that was read, and the layer that refused.
#[derive(Clone, Copy, Debug, PartialEq, Eq)]
pub struct Refusal {
    // as it is printed; the kinds are the faults' variants, and several share a number
    pub number: u8,
    pub place: usize,
    pub layer: Layer,
}

impl PlanFault {
    // Each layer's faults have a table of numbers and places of their own: a trait would repeat both as ghost members.
    pub fn refusal(&self) -> Refusal
        ensures { result ≡ plan_refusal self.now }
    {
        Refusal {
            number: self.number(),
            place: self.place(),
            layer: Layer::Plan,
        }
    }

    // As it is printed.
    fn number(&self) -> u8
        ensures { result ≡ plan_number self.now }
    {
        match self {
            PlanFault::Short(_) => 1,
            PlanFault::Mark => 2,
            PlanFault::Version => 3,
            PlanFault::Refused(
                PlanRefusal::TaskCount | PlanRefusal::LineCount | PlanRefusal::EventCount,
            ) => 4,
            PlanFault::Refused(PlanRefusal::PolicyNumber | PlanRefusal::RuleNumber) => 5,
            PlanFault::Refused(
                PlanRefusal::StartSet | PlanRefusal::FavouredSet | PlanRefusal::WakeSet { .. },
            ) => 6,
            PlanFault::Buffer(_) => 10,
        }
    }

    // The place in the plan's bytes, or the length that is too short.
    fn place(&self) -> usize
        ensures { result ≡ plan_place self.now }
    {
        match self {
            PlanFault::Short(length) => *length,
            PlanFault::Mark => 0,
            PlanFault::Version => 3,
            PlanFault::Refused(PlanRefusal::TaskCount) => 5,
            PlanFault::Refused(PlanRefusal::LineCount) => 6,
            PlanFault::Refused(PlanRefusal::EventCount) => 7,
            PlanFault::Refused(PlanRefusal::PolicyNumber) => 8,
            PlanFault::Refused(PlanRefusal::RuleNumber) => 9,
            PlanFault::Refused(PlanRefusal::StartSet) => 10,
            PlanFault::Refused(PlanRefusal::FavouredSet) => 12,
            PlanFault::Refused(
                PlanRefusal::WakeSet {
                    tasks,
                    lines,
                    event,
                },
            ) => 14 + *tasks as usize + *lines as usize + 2 * event.0 as usize,
            PlanFault::Buffer(length) => *length,
        }
    }
}
