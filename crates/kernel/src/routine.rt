// The routines of a board.
ghost use Rattle.std.specs.Prelude.{◌≡◌};
ghost use Rattle.kernel.specs.Numbers.{routine_number};

use numbers::number::{LineNo, TaskNo};

#[derive(Clone, Copy, Debug, PartialEq, Eq)]
pub enum Routine {
    // the direct and the delayed scheduler
    Direct,
    Delayed,
    Task(TaskNo),
    // the handler of a line
    Handler(LineNo),
}

impl Routine {
    // 0 and 1 for the schedulers, 2 + t for task t, 18 + i for the handler of line i; 255 where that is no byte. No
    // `From`, since that number is then no routine's.
    pub fn number(self) -> u8
        ensures { result ≡ routine_number self }
    {
        match self {
            Routine::Direct => 0,
            Routine::Delayed => 1,
            Routine::Task(t) => 2u8.saturating_add(t.0),
            Routine::Handler(i) => 18u8.saturating_add(i.0),
        }
    }
}
