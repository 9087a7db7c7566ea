// What the machine keeps, and the steps of its routines.
ghost use Rattle.std.specs.Prelude.{◌≡◌, ◌∷◌, length};
ghost use Rattle.kernel.specs.Numbers.{answer_number};
ghost use Rattle.kernel.specs.States.{line_place, task_of};
ghost use Rattle.kernel.specs.Rules.{in_application, in_handler, nested, return, start_delayed};
ghost use Rattle.board.specs.Viewed.{parts};
ghost use Rattle.system.specs.Listed.{listed};
ghost use Rattle.system.specs.Views.{Room, go_at, standing, view};

use crate::stack::Stack;
use crate::table::{LineTable, TaskTable};
use crate::waking::woken;
use board::plan::Plan;
use kernel::answer::{Accepted, Answer, CallRefusal};
use kernel::place::{LinePlace, SchedulerPlace, TaskPlace};
use kernel::routine::Routine;
use numbers::number::{EventNo, LineNo, TaskNo};
use numbers::set::Set;
use policy::policies::Policy;

#[derive(Clone, Copy)]
pub struct State {
    pub enabled: Set<LineNo>,
    pub pending: Set<LineNo>,
    // whether the delayed scheduler is enabled
    pub delayed: bool,
    pub request: bool,
    pub active: Routine,
    pub suspended: Stack,
    pub current: TaskNo,
    pub ready: Set<TaskNo>,
    pub posted: Set<EventNo>,
    // the scheduler's copy of the posted events
    pub copied: Set<EventNo>,
    pub chosen: Option<TaskNo>,
    pub tasks: TaskTable,
    pub lines: LineTable,
    pub scheduler: SchedulerPlace,
}

// The active routine's kind and place.
#[derive(Clone, Copy)]
pub(crate) enum Standing {
    Direct(SchedulerPlace),
    Delayed(SchedulerPlace),
    Task(TaskNo, TaskPlace),
    Handler(LineNo, LinePlace),
}

impl State {
    pub(crate) fn standing(&self) -> Standing
        ensures { result ≡ standing (view self.now) }
    {
        match self.active {
            Routine::Direct => Standing::Direct(self.scheduler),
            Routine::Delayed => Standing::Delayed(self.scheduler),
            Routine::Task(t) => Standing::Task(t, self.tasks.get(t).place),
            Routine::Handler(i) => Standing::Handler(i, self.lines.get(i)),
        }
    }

    pub(crate) fn in_application(&self, task: TaskNo) -> bool
        ensures { result ≡ in_application (task_of (view self.now) task).place }
    {
        self.tasks.get(task).place == TaskPlace::Application
    }

    pub(crate) fn in_handler(&self, line: LineNo) -> bool
        ensures { result ≡ in_handler (line_place (view self.now) line) }
    {
        self.lines.get(line) == LinePlace::Handling
    }

    // Whether the line's handler is active or suspended.
    pub(crate) fn nested(&self, line: LineNo) -> bool
        ensures { result ≡ nested line (self.now.active ∷ listed self.now.suspended) }
    {
        self.active == Routine::Handler(line) || self.suspended.holds(line)
    }

    // Starts the delayed scheduler.
    pub(crate) fn start_delayed(&mut self)
        ensures { view self.new ≡ start_delayed (view self.old) }
    {
        self.active = Routine::Delayed;
        self.request = false;
        self.scheduler = SchedulerPlace::Copying;
    }

    // Goes back to the latest suspended routine, or to the delayed scheduler if it is requested over a task.
    pub(crate) fn go_back(&mut self)
        ensures { view self.new ≡ return (view self.old) }
    {
        match self.suspended.get(0) {
            Some(Routine::Task(_)) if self.request && self.delayed => self.start_delayed(),
            Some(routine) => {
                self.active = routine;
                self.suspended.pop();
            }
            None => {}
        }
    }

    // The next step of the active routine, by its kind and place: one match, so that each of them is seen to have its
    // step.
    pub(crate) fn advance<P: Policy>(
        &mut self,
        standing: Standing,
        plan: &Plan,
        policy: &P,
    ) -> Answer
        requires { Room standing (length (listed self.old.suspended)) }
        ensures state { view self.new ≡ (go_at (parts plan.now) (P.Policy.chosen policy.now) standing (view self.old)).0 }
        ensures answer { answer_number result ≡ (go_at (parts plan.now) (P.Policy.chosen policy.now) standing (view self.old)).1 }
    {
        match standing {
            Standing::Task(_, TaskPlace::Application) => Err(CallRefusal::OtherPlace),
            Standing::Task(t, TaskPlace::Adding) => {
                self.ready = self.ready.union(self.tasks.get(t).kept);
                self.tasks.move_to(t, TaskPlace::Requesting);
                Ok(Accepted::Done)
            }
            Standing::Task(t, TaskPlace::Requesting) => {
                self.request = true;
                self.tasks.move_to(t, TaskPlace::Opening);
                Ok(Accepted::Done)
            }
            Standing::Task(t, TaskPlace::Opening) => {
                self.delayed = true;
                self.tasks.move_to(t, TaskPlace::Waiting);
                Ok(Accepted::Done)
            }
            Standing::Task(t, TaskPlace::Waiting) => {
                if !self.request {
                    self.tasks.move_to(t, TaskPlace::Application);
                }
                Ok(Accepted::Done)
            }
            Standing::Task(t, TaskPlace::Blocking) => {
                self.ready = self.ready.without(t);
                self.tasks.move_to(t, TaskPlace::Yielding);
                Ok(Accepted::Done)
            }
            Standing::Task(t, TaskPlace::Yielding) => {
                self.tasks.move_to(t, TaskPlace::Opening);
                self.suspended.push(Routine::Task(t));
                self.active = Routine::Direct;
                self.scheduler = SchedulerPlace::Copying;
                Ok(Accepted::Done)
            }
            Standing::Direct(SchedulerPlace::Copying)
            | Standing::Delayed(SchedulerPlace::Copying) => {
                self.copied = self.posted;
                self.scheduler = SchedulerPlace::Waking;
                Ok(Accepted::Done)
            }
            Standing::Direct(SchedulerPlace::Waking) | Standing::Delayed(SchedulerPlace::Waking) =>
                {
                    self.ready = self.ready.union(woken(plan.tables().wakes, self.copied));
                    self.scheduler = SchedulerPlace::Clearing;
                    Ok(Accepted::Done)
                }
            Standing::Direct(SchedulerPlace::Clearing)
            | Standing::Delayed(SchedulerPlace::Clearing) => {
                self.posted = self.posted.difference(self.copied);
                self.scheduler = SchedulerPlace::Choosing;
                Ok(Accepted::Done)
            }
            Standing::Direct(SchedulerPlace::Choosing)
            | Standing::Delayed(SchedulerPlace::Choosing) => {
                match policy.choose(self.ready, self.current) {
                    Some(t) => {
                        self.chosen = Some(t);
                        self.scheduler = SchedulerPlace::Noting;
                    }
                    None => {
                        self.scheduler = SchedulerPlace::Copying;
                    }
                }
                Ok(Accepted::Done)
            }
            Standing::Direct(SchedulerPlace::Noting) => {
                self.tasks.note_resume(self.current, false);
                self.scheduler = SchedulerPlace::Switching;
                Ok(Accepted::Done)
            }
            Standing::Delayed(SchedulerPlace::Noting) => {
                self.tasks.note_resume(self.current, true);
                self.scheduler = SchedulerPlace::Switching;
                Ok(Accepted::Done)
            }
            Standing::Direct(SchedulerPlace::Switching)
            | Standing::Delayed(SchedulerPlace::Switching) => {
                if let Some(t) = self.chosen {
                    self.current = t;
                    self.suspended.replace(Routine::Task(t));
                }
                self.scheduler = SchedulerPlace::Loading;
                Ok(Accepted::Done)
            }
            Standing::Direct(SchedulerPlace::Loading)
            | Standing::Delayed(SchedulerPlace::Loading) => {
                self.delayed = self.tasks.get(self.current).resume;
                self.scheduler = SchedulerPlace::Returning;
                Ok(Accepted::Done)
            }
            Standing::Direct(SchedulerPlace::Returning)
            | Standing::Delayed(SchedulerPlace::Returning) => {
                self.go_back();
                Ok(Accepted::Done)
            }
            Standing::Handler(i, LinePlace::Posted) => {
                self.request = true;
                self.lines.set(i, LinePlace::Handling);
                Ok(Accepted::Done)
            }
            Standing::Handler(_, LinePlace::Idle | LinePlace::Handling) => Err(
                CallRefusal::OtherPlace,
            ),
        }
    }
}
