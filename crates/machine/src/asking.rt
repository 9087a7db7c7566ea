// Questions to the machine. They change nothing.
ghost use Rattle.std.specs.Prelude.{◌≡◌, ℕ, ◌≤◌, length};
ghost use Rattle.board.specs.Figure.{figure_of};
ghost use Rattle.kernel.specs.Afterwards.{SoundHoweverLed};
ghost use Rattle.kernel.specs.Rules.{events, lines, tasks};
ghost use Rattle.kernel.specs.States.{line_place, task_of};
ghost use Rattle.numbers.specs.Sets.{has};
ghost use Rattle.system.specs.Listed.{nth};
ghost use Rattle.machine.specs.Asked.{asked, found, noted_answer};
ghost use Rattle.machine.specs.Machines.{board_of, policy_of, ranks_of, state_of};

use crate::machine::Machine;
use kernel::place::{LinePlace, SchedulerPlace};
use kernel::routine::Routine;
use numbers::number::{EventNo, LineNo, TaskNo};
use policy::policies::Policy;
use system::table::TaskRecord;
use thiserror::Error;

// A task, line or event that the plan lacks, or a position beyond the suspended list.
#[derive(Clone, Copy, Debug, PartialEq, Eq, Error)]
#[error("the plan lacks the task, line or event, or no routine is suspended there")]
pub struct Unknown;

impl Unknown {
    // As it is printed.
    pub fn number(self) -> u8
        ensures { result ≡ 11 }
    {
        11
    }
}

fn known<T: Copy>(number: u8, count: u8, value: T) -> Result<T, Unknown>
    ensures { result ≡ asked number count value }
{
    (number < count).then_some(value).ok_or(Unknown)
}

impl<P: Policy> Machine<P> {
    // The active routine. Whatever list of calls led here: the running task is the policy's choice, inner handlers
    // have the lower rank within the figure, and each line's new raises are entered or pending.
    pub fn active(&self) -> Routine
        ensures is { result ≡ (state_of self.now).active }
        ensures sound { SoundHoweverLed (board_of self.now) (P.Policy.chosen (policy_of self.now)) (ranks_of self.now) (state_of self.now) }
    {
        self.system.state().active
    }

    // How many routines are suspended: within the figure.
    pub fn suspended_count(&self) -> usize
        ensures is { result ≡ length (state_of self.now).suspended }
        ensures figure { result ≤ figure_of (ranks_of self.now) (lines (board_of self.now)) }
    {
        self.system.state().suspended.len()
    }

    // Whether the delayed scheduler is enabled.
    pub fn delayed_enabled(&self) -> bool
        ensures { result ≡ (state_of self.now).delayed }
    {
        self.system.state().delayed
    }

    pub fn request(&self) -> bool
        ensures { result ≡ (state_of self.now).request }
    {
        self.system.state().request
    }

    pub fn current(&self) -> TaskNo
        ensures { result ≡ (state_of self.now).current }
    {
        self.system.state().current
    }

    // The scheduler's chosen task.
    pub fn chosen(&self) -> Option<TaskNo>
        ensures { result ≡ (state_of self.now).chosen }
    {
        self.system.state().chosen
    }

    pub fn scheduler_place(&self) -> SchedulerPlace
        ensures { result ≡ (state_of self.now).scheduler }
    {
        self.system.state().scheduler
    }

    // Whether a line is enabled.
    pub fn enabled(&self, line: LineNo) -> Result<bool, Unknown>
        ensures { result ≡ asked line.0 (lines (board_of self.now)) (has (state_of self.now).enabled line.0) }
    {
        known(
            line.0,
            self.system.counts().lines,
            self.system.state().enabled.contains(line),
        )
    }

    // Whether a line is pending.
    pub fn pending(&self, line: LineNo) -> Result<bool, Unknown>
        ensures { result ≡ asked line.0 (lines (board_of self.now)) (has (state_of self.now).pending line.0) }
    {
        known(
            line.0,
            self.system.counts().lines,
            self.system.state().pending.contains(line),
        )
    }

    // The place of a line.
    pub fn line_place(&self, line: LineNo) -> Result<LinePlace, Unknown>
        ensures { result ≡ asked line.0 (lines (board_of self.now)) (line_place (state_of self.now) line) }
    {
        known(
            line.0,
            self.system.counts().lines,
            self.system.state().lines.get(line),
        )
    }

    // Whether a task is ready.
    pub fn ready(&self, task: TaskNo) -> Result<bool, Unknown>
        ensures { result ≡ asked task.0 (tasks (board_of self.now)) (has (state_of self.now).ready task.0) }
    {
        known(
            task.0,
            self.system.counts().tasks,
            self.system.state().ready.contains(task),
        )
    }

    // A task's record: its place, its resume flag and the set that it keeps.
    pub fn task(&self, task: TaskNo) -> Result<TaskRecord, Unknown>
        ensures { noted_answer result ≡ asked task.0 (tasks (board_of self.now)) (task_of (state_of self.now) task) }
    {
        known(
            task.0,
            self.system.counts().tasks,
            self.system.state().tasks.get(task),
        )
    }

    // Whether an event is posted.
    pub fn posted_event(&self, event: EventNo) -> Result<bool, Unknown>
        ensures { result ≡ asked event.0 (events (board_of self.now)) (has (state_of self.now).posted event.0) }
    {
        known(
            event.0,
            self.system.counts().events,
            self.system.state().posted.contains(event),
        )
    }

    // Whether an event is in the scheduler's copy.
    pub fn copied_event(&self, event: EventNo) -> Result<bool, Unknown>
        ensures { result ≡ asked event.0 (events (board_of self.now)) (has (state_of self.now).copied event.0) }
    {
        known(
            event.0,
            self.system.counts().events,
            self.system.state().copied.contains(event),
        )
    }

    // A suspended routine, by its position from the latest.
    pub fn suspended(&self, position: usize) -> Result<Routine, Unknown>
        ensures { result ≡ found (nth (state_of self.now).suspended position) }
    {
        self.system.state().suspended.get(position).ok_or(Unknown)
    }
}
