// The suspended routines, in an array of the greatest figure; the latest is the last of the first `len`.
// A state is copied and allocates nothing, so this is no `Vec`; and it has no model, since a `Copy` struct is not copied
// on when it holds one.
ghost use Rattle.std.specs.Prelude.{◌≤◌};

use kernel::routine::Routine;
use numbers::number::LineNo;

#[derive(Clone, Copy)]
pub struct Stack {
    slots: [Routine; 9],
    len: usize,
    ghost fits: { len ≤ 9 },
}

impl Stack {
    ghost use Rattle.std.specs.Prelude.{◌≡◌, ℕ, ◌<◌, [], ◌∷◌, length, take};
    ghost use Rattle.kernel.specs.Rules.{nested, rest};
    ghost use Rattle.system.specs.Listed.{listed, nth};

    pub(crate) fn new(first: Routine) -> Stack
        ensures { listed result ≡ first ∷ [] }
    {
        let mut slots = [Routine::Direct; 9];
        slots[0] = first;
        Stack { slots, len: 1 }
    }

    // The first is the earliest.
    fn held(&self) -> &[Routine]
        ensures { result.now ≡ take self.now.len self.now.slots }
    {
        &self.slots[..self.len]
    }

    #[tactic(auto, using(crate::proofs::Stacks::length_latest))]
    pub fn len(&self) -> usize
        ensures { result ≡ length (listed self.now) }
    {
        self.held().len()
    }

    // Suspends one more routine.
    #[tactic(auto, using(crate::proofs::Stacks::length_latest, crate::proofs::Stacks::latest_push))]
    pub(crate) fn push(&mut self, routine: Routine)
        requires { length (listed self.old) < 9 }
        ensures { listed self.new ≡ routine ∷ listed self.old }
    {
        self.slots[self.len] = routine;
        self.len += 1;
    }

    // Takes the latest off.
    pub(crate) fn pop(&mut self)
        ensures { listed self.new ≡ rest (listed self.old) }
    {
        self.len = self.len.saturating_sub(1);
    }

    // Puts a routine in place of the latest.
    #[tactic(auto, using(crate::proofs::Stacks::latest_replace))]
    pub(crate) fn replace(&mut self, routine: Routine)
        ensures { listed self.new ≡ routine ∷ rest (listed self.old) }
    {
        if self.len > 0 {
            self.slots[self.len - 1] = routine;
        } else {
            self.slots[0] = routine;
            self.len = 1;
        }
    }

    // The routine at a position, counted from the latest.
    pub fn get(&self, position: usize) -> Option<Routine>
        ensures { result ≡ nth (listed self.now) position }
    {
        self.held().iter().rev().nth(position).copied()
    }

    // Whether the handler of a line is suspended. No `contains`: it compares in blocks with no early end, and over at most
    // nine routines that would cost every call of the machine.
    pub(crate) fn holds(&self, line: LineNo) -> bool
        ensures { result ≡ nested line (listed self.now) }
    {
        self.held()
            .iter()
            .any(|routine| *routine == Routine::Handler(line))
    }
}
