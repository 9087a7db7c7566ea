// The memory figure: how many routines interrupts can suspend at once.
ghost use Rattle.std.specs.Prelude.{◌≡◌, ℕ, ◌≤◌, length};
ghost use Rattle.board.specs.Figure.{some_line, different_ranks, figure_of, OneMoreThanTheDeepestNest};
ghost use Rattle.board.specs.Viewed.{parts};

use crate::nesting::NestingRule;
use crate::plan::Plan;
use numbers::number::LineNo;

// Whether one of the first lines has the rank.
fn some_line<R: NestingRule>(rule: &R, lines: u8, rank: u8) -> bool
    ensures { result ≡ some_line (R.NestingRule.ranked rule.now) rank lines }
{
    (0..lines).any(|i| rule.rank(LineNo(i)) == rank)
}

// How many different ranks the first lines have.
fn ranks_of<R: NestingRule>(rule: &R, lines: u8) -> u8
    ensures is { result ≡ different_ranks (R.NestingRule.ranked rule.now) lines }
    ensures few { result ≤ lines }
{
    let different = (0..lines)
        .filter(|&i| !some_line(rule, i, rule.rank(LineNo(i))))
        .count();
    different as u8
}

// One more than the number of different ranks of the plan's lines.
pub fn figure<R: NestingRule>(plan: &Plan, rule: &R) -> u8
    ensures is { result ≡ figure_of (R.NestingRule.ranked rule.now) (length (parts plan.now).levels) }
    ensures nests { OneMoreThanTheDeepestNest (R.NestingRule.ranked rule.now) (length (parts plan.now).levels) result }
{
    1 + ranks_of(rule, plan.levels.count)
}
