// The numbers of tasks, interrupt lines and events: three types, so that none stands for another.
// No generic type with a marker of the kind: `TaskNo(3)` is built and matched as it reads.
ghost use Rattle.std.specs.Prelude.{◌≡◌, ℕ};

#[derive(Clone, Copy, Debug, PartialEq, Eq)]
pub struct TaskNo(pub u8);

#[derive(Clone, Copy, Debug, PartialEq, Eq)]
pub struct LineNo(pub u8);

#[derive(Clone, Copy, Debug, PartialEq, Eq)]
pub struct EventNo(pub u8);

// What a set can hold: something that has a number. No `Into<u8>`, which has no ghost function for the clauses to name.
pub trait Numbered {
    ghost number: { Self → ℕ };

    fn number(self) -> u8
        ensures { result ≡ number self };
}

impl Numbered for TaskNo {
    ghost number = { λ t. t.0 };

    fn number(self) -> u8 {
        let TaskNo(number) = self;
        number
    }
}

impl Numbered for LineNo {
    ghost number = { λ i. i.0 };

    fn number(self) -> u8 {
        let LineNo(number) = self;
        number
    }
}

impl Numbered for EventNo {
    ghost number = { λ e. e.0 };

    fn number(self) -> u8 {
        let EventNo(number) = self;
        number
    }
}
