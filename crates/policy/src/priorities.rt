// The priorities of the tasks.
ghost use Rattle.std.specs.Prelude.{◌≡◌, ℕ};
ghost use Rattle.policy.specs.Priorities.{highest_priority, leaders, member_of_priority, priority_of};

use numbers::number::TaskNo;
use numbers::set::Set;

// By task number; 0 for a task that the plan lacks. A type of its own beside the tables of the lines, whose numbers are no
// tasks'.
#[derive(Clone, Copy)]
pub struct Priorities {
    pub of: [u8; 16],
}

impl Priorities {
    fn at(&self, task: TaskNo) -> u8
        ensures { result ≡ priority_of self.now.of task.0 }
    {
        self.of.get(task.0 as usize).copied().unwrap_or(0)
    }

    // The highest priority of the tasks of the set.
    fn highest(&self, set: Set<TaskNo>) -> u8
        ensures { result ≡ highest_priority self.now.of set.bits }
    {
        // here and below no chain over the numbers, which takes twice the instructions
        let mut high = 0;
        for t in 0..16 {
            let task = TaskNo(t);
            if set.contains(task) {
                high = self.at(task).max(high);
            }
        }
        high
    }

    fn member_of_priority(&self, set: Set<TaskNo>, priority: u8, task: TaskNo) -> bool
        ensures { result ≡ member_of_priority self.now.of set.bits priority task.0 }
    {
        set.contains(task) && self.at(task) == priority
    }

    // The tasks of the set with its highest priority.
    pub(crate) fn leaders(&self, set: Set<TaskNo>) -> Set<TaskNo>
        ensures { result.bits ≡ leaders self.now.of set.bits }
    {
        let high = self.highest(set);
        let mut found = Set::from_bits(0);
        for t in 0..16 {
            let task = TaskNo(t);
            if self.member_of_priority(set, high, task) {
                found = found.with(task);
            }
        }
        found
    }
}
