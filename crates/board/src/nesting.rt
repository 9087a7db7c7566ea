// Nesting rules: which handler may interrupt which.
ghost use Rattle.std.specs.Prelude.{◌≡◌, ℕ, ◌<◌};
ghost use Rattle.numbers.specs.declared.number.LineNo.{LineNo};
ghost use Rattle.board.specs.Ranks.{rank_bound, rank_by};
ghost use Rattle.std.proofs.Common.{rules};

use crate::kinds::RankRule;
use crate::levels::Levels;
use numbers::number::LineNo;

pub trait NestingRule {
    // The rank of each line; a handler interrupts only those of higher rank.
    ghost ranked: { Self → LineNo → ℕ };

    fn rank(&self, line: LineNo) -> u8
        ensures { result ≡ ranked self.now line };

    ghost bounded: { (n : Self) (i : LineNo) → ranked n i < rank_bound };
}

// The rule that a plan names, over the levels of its lines.
#[derive(Clone, Copy)]
pub struct LevelNesting {
    pub(crate) rule: RankRule,
    pub(crate) levels: Levels,
}

impl NestingRule for LevelNesting {
    ghost ranked = { λ n i. rank_by n.rule n.levels.of i };

    ghost bounded = { Prim.search rules };

    fn rank(&self, line: LineNo) -> u8 {
        let level = self.levels.at(line);
        // Three kinds of a line each: a closure for each would be made by this very match.
        match self.rule {
            RankRule::By32 => level / 32,
            RankRule::By64 => level / 64,
            RankRule::Flat => 0,
        }
    }
}
