// The ranks of the lines, asked once of a nesting rule.
ghost use Rattle.std.specs.Prelude.{ℕ, ◌<◌, slice_index};
ghost use Rattle.board.specs.Ranks.{rank_bound};

use board::nesting::NestingRule;
use numbers::number::LineNo;

// By line number. A type of its own beside the levels, since its bound is the ranks'.
#[derive(Clone, Copy)]
pub struct RankTable {
    of: [u8; 16],
    ghost small: { (i : ℕ) → slice_index of i < rank_bound },
}

impl RankTable {
    ghost use Rattle.std.specs.Prelude.{◌≡◌, ℕ, ◌<◌, nat_lt};
    ghost use Rattle.numbers.specs.declared.number.LineNo.{LineNo};
    ghost use Rattle.system.specs.Stacked.{rank_in};

    pub(crate) fn of_rule<N: NestingRule>(rule: &N) -> RankTable
        ensures { (i : LineNo) → i.0 < 16 → rank_in result.of i ≡ N.NestingRule.ranked rule.now i }
    {
        RankTable {
            of: std::array::from_fn(|n| rule.rank(LineNo(n as u8))),
        }
    }

    fn rank(&self, line: LineNo) -> u8
        ensures { result ≡ rank_in self.now.of line }
    {
        self.of.get(line.0 as usize).copied().unwrap_or(0)
    }

    // Whether a line is strictly more urgent than another.
    pub(crate) fn below(&self, line: LineNo, other: LineNo) -> bool
        ensures { result ≡ nat_lt (rank_in self.now.of line) (rank_in self.now.of other) }
    {
        self.rank(line) < self.rank(other)
    }
}
