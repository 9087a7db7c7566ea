// The state of a board with its plan and the ranks of its lines.
ghost use Rattle.std.specs.Prelude.{◌≡◌, true};
ghost use Rattle.board.specs.Viewed.{parts};
ghost use Rattle.kernel.specs.Rules.{lines};
ghost use Rattle.system.specs.Listed.{listed};
ghost use Rattle.system.specs.Stacked.{rank_in, stacked};

use crate::ranks::RankTable;
use crate::state::State;
use board::plan::Plan;

#[derive(Drop)]
pub struct System {
    pub(crate) plan: Plan,
    pub(crate) ranks: RankTable,
    pub(crate) state: State,
    ghost stands: { stacked (rank_in ranks.of) (lines (parts plan)) state.active (listed state.suspended) ≡ true },
}
