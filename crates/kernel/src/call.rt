// The ten calls.
ghost use Rattle.std.specs.Prelude.{◌≡◌};
ghost use Rattle.kernel.specs.Numbers.{call_number};

use numbers::number::{EventNo, LineNo, TaskNo};
use numbers::set::Set;
use std::fmt;

#[derive(Clone, Copy, Debug, PartialEq, Eq)]
pub enum Call {
    Raise(LineNo),
    Enter(LineNo),
    Pend,
    Go,
    Signal(Set<TaskNo>),
    Block,
    Post(EventNo),
    Leave,
    Mask(LineNo),
    Unmask(LineNo),
}

impl Call {
    // 1 to 10, in the order of the calls. No `From`, since a call is more than its number.
    pub fn number(self) -> u8
        ensures { result ≡ call_number self }
    {
        match self {
            Call::Raise(_) => 1,
            Call::Enter(_) => 2,
            Call::Pend => 3,
            Call::Go => 4,
            Call::Signal(_) => 5,
            Call::Block => 6,
            Call::Post(_) => 7,
            Call::Leave => 8,
            Call::Mask(_) => 9,
            Call::Unmask(_) => 10,
        }
    }
}

impl fmt::Display for Call {
    ghost use Rattle.std.specs.Prelude.{Some};
    ghost use Rattle.kernel.specs.Texts.{call_text};

    ghost output = { λ call. Some (call_text call) };

    fn fmt<W: fmt::Write>(&self, f: &mut fmt::Formatter<W>) -> fmt::Result {
        match *self {
            Call::Raise(line) => write!(f, "raise {}", line.0),
            Call::Enter(line) => write!(f, "enter {}", line.0),
            Call::Pend => f.write_str("pend"),
            Call::Go => f.write_str("go"),
            Call::Signal(set) => write!(f, "signal {}", set.bits()),
            Call::Block => f.write_str("block"),
            Call::Post(event) => write!(f, "post {}", event.0),
            Call::Leave => f.write_str("leave"),
            Call::Mask(line) => write!(f, "mask {}", line.0),
            Call::Unmask(line) => write!(f, "unmask {}", line.0),
        }
    }
}
