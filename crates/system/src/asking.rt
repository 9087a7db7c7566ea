// What a system holds.
ghost use Rattle.std.specs.Prelude.{◌≡◌};
ghost use Rattle.kernel.specs.Rules.{events, lines, tasks};
ghost use Rattle.system.specs.Systems.{board_of, state_of};
ghost use Rattle.system.specs.Views.{view};

use crate::state::State;
use crate::system::System;
use board::plan::Counts;

impl System {
    pub fn state(&self) -> State
        ensures { view result ≡ state_of self.now }
    {
        self.state
    }

    // How many tasks, lines and events the plan has. The plan itself is not shown.
    pub fn counts(&self) -> Counts
        ensures tasks { result.tasks ≡ tasks (board_of self.now) }
        ensures lines { result.lines ≡ lines (board_of self.now) }
        ensures events { result.events ≡ events (board_of self.now) }
    {
        self.plan.counts()
    }
}
