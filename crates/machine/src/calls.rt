// The calls. Each answers its number and the number of the routine then active: plain numbers, as boards are driven by
// them and runs are printed with them.
ghost use Rattle.kernel.specs.declared.call.Call.TheVariants.{Raise, Enter, Pend, Go, Signal, Block, Post, Leave, Mask, Unmask};
ghost use Rattle.machine.specs.Making.{Makes};

use crate::machine::Machine;
use kernel::answer;
use kernel::call::Call;
use numbers::number::{EventNo, LineNo, TaskNo};
use numbers::set::Set;
use policy::policies::Policy;

impl<P: Policy> Machine<P> {
    // Any of the calls.
    pub fn apply(&mut self, call: Call) -> (u8, u8)
        ensures { Makes P.Policy.chosen call self.old self.new result }
    {
        let given = self.system.apply(&self.policy, call);
        (answer::number(given), self.system.state().active.number())
    }

    // An interrupt arrives on a line: 100 if the line was not pending, 101 if it was.
    pub fn raise(&mut self, line: LineNo) -> (u8, u8)
        ensures { Makes P.Policy.chosen (Raise line) self.old self.new result }
    {
        self.apply(Call::Raise(line))
    }

    // Enters the handler of a pending line.
    pub fn enter(&mut self, line: LineNo) -> (u8, u8)
        ensures { Makes P.Policy.chosen (Enter line) self.old self.new result }
    {
        self.apply(Call::Enter(line))
    }

    // Starts the delayed scheduler over the active task.
    pub fn pend(&mut self) -> (u8, u8)
        ensures { Makes P.Policy.chosen Pend self.old self.new result }
    {
        self.apply(Call::Pend)
    }

    // The active routine's own next step.
    pub fn go(&mut self) -> (u8, u8)
        ensures { Makes P.Policy.chosen Go self.old self.new result }
    {
        self.apply(Call::Go)
    }

    // The active task makes a set of tasks ready.
    pub fn signal(&mut self, set: Set<TaskNo>) -> (u8, u8)
        ensures { Makes P.Policy.chosen (Signal set) self.old self.new result }
    {
        self.apply(Call::Signal(set))
    }

    // The active task gives way until it is woken.
    pub fn block(&mut self) -> (u8, u8)
        ensures { Makes P.Policy.chosen Block self.old self.new result }
    {
        self.apply(Call::Block)
    }

    // The active handler posts an event.
    pub fn post(&mut self, event: EventNo) -> (u8, u8)
        ensures { Makes P.Policy.chosen (Post event) self.old self.new result }
    {
        self.apply(Call::Post(event))
    }

    // The active handler ends.
    pub fn leave(&mut self) -> (u8, u8)
        ensures { Makes P.Policy.chosen Leave self.old self.new result }
    {
        self.apply(Call::Leave)
    }

    // Disables a line.
    pub fn mask(&mut self, line: LineNo) -> (u8, u8)
        ensures { Makes P.Policy.chosen (Mask line) self.old self.new result }
    {
        self.apply(Call::Mask(line))
    }

    // Enables a line.
    pub fn unmask(&mut self, line: LineNo) -> (u8, u8)
        ensures { Makes P.Policy.chosen (Unmask line) self.old self.new result }
    {
        self.apply(Call::Unmask(line))
    }
}
