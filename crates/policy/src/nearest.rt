// The first task of a set, from a task on.
ghost use Rattle.std.specs.Prelude.{◌≡◌};
ghost use Rattle.policy.specs.Policies.{stay};

use numbers::number::TaskNo;
use numbers::set::Set;

// The task itself if the set has it, otherwise the next one that the set has, going up and from 15 to 0.
pub(crate) fn nearest(set: Set<TaskNo>, from: TaskNo) -> Option<TaskNo>
    ensures { result ≡ stay set.bits from }
{
    // no chain of two ranges, which takes half as many instructions again
    let mut at = from.0.min(15);
    for _i in 0..16u8 {
        if set.contains(TaskNo(at)) {
            return Some(TaskNo(at));
        }
        at = (at + 1) % 16;
    }
    None
}
