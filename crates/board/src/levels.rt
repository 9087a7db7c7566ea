// The levels of the lines.
ghost use Rattle.std.specs.Prelude.{◌≡◌, ℕ, ◌<◌, slice_index};

use numbers::number::LineNo;

// By line number; 0 for a line that the plan lacks. The priorities and the ranks are tables of their own: one generic
// type would save a look-up of one line, and want a marker and a bound for each.
#[derive(Clone, Copy)]
pub struct Levels {
    of: [u8; 16],
    ghost bytes: { (i : ℕ) → slice_index of i < 256 },
}

impl Levels {
    pub(crate) fn new(of: [u8; 16]) -> Levels
        ensures { result.of ≡ of }
    {
        Levels { of }
    }

    pub(crate) fn at(&self, line: LineNo) -> u8
        ensures { result ≡ slice_index self.now.of line.0 }
    {
        self.of.get(line.0 as usize).copied().unwrap_or(0)
    }
}
