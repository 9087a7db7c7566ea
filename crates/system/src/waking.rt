// The tasks that events wake.
ghost use Rattle.std.specs.Prelude.{◌≡◌, ◌≤◌, map, length};
ghost use Rattle.board.specs.Plans.{bits_of};
ghost use Rattle.kernel.specs.Rules.{woken as wake};

use numbers::number::{EventNo, TaskNo};
use numbers::set::Set;

// The union of the wake sets of some events.
#[tactic(auto, using(crate::proofs::Wakes::woken_below_steps))]
pub(crate) fn woken(wakes: &[Set<TaskNo>], events: Set<EventNo>) -> Set<TaskNo>
    requires { length wakes.now ≤ 16 }
    ensures { result.bits ≡ wake (map bits_of wakes.now) events.bits }
{
    let mut tasks = Set::from_bits(0);
    for (e, wake) in wakes.iter().enumerate() {
        if events.contains(EventNo(e as u8)) {
            tasks = tasks.union(*wake);
        }
    }
    tasks
}
