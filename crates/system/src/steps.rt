// What each call does to the state.
ghost use Rattle.std.specs.Prelude.{◌≡◌, cond, nat_lt, Ok, Err};
ghost use Rattle.kernel.specs.Rules.{blocked, enable_by, entered, gone, left, lines, pended, posted_event, raised, signalled};
ghost use Rattle.system.specs.Systems.{Makes, board_of, ranks_of, state_of};

use crate::system::System;
use kernel::answer::{Accepted, Answer, CallRefusal};
use kernel::place::{LinePlace, TaskPlace};
use kernel::routine::Routine;
use numbers::number::{EventNo, LineNo, TaskNo};
use numbers::set::Set;
use policy::policies::Policy;

impl System {
    // Whether the plan has the line.
    fn known(&self, line: LineNo) -> Result<(), CallRefusal>
        ensures { result ≡ cond (nat_lt line.0 (lines (board_of self.now))) (Ok tt) (Err CallRefusal.Unknown) }
    {
        if line.0 < self.plan.counts().lines {
            Ok(())
        } else {
            Err(CallRefusal::Unknown)
        }
    }

    pub(crate) fn raised(&mut self, line: LineNo) -> Answer
        ensures { Makes self.old self.new result (raised (board_of self.old) line (state_of self.old)) }
    {
        self.known(line)?;
        if self.state.pending.contains(line) {
            return Ok(Accepted::Merged);
        }
        self.state.pending = self.state.pending.with(line);
        Ok(Accepted::New)
    }

    pub(crate) fn entered(&mut self, line: LineNo) -> Answer
        ensures { Makes self.old self.new result (entered (board_of self.old) (ranks_of self.old) line (state_of self.old)) }
    {
        self.known(line)?;
        match self.state.active {
            _ if !self.state.pending.contains(line) => Err(CallRefusal::NotPending),
            _ if !self.state.enabled.contains(line) => Err(CallRefusal::NotEnabled),
            _ if self.state.nested(line) => Err(CallRefusal::AlreadyNested),
            Routine::Handler(j) if !self.ranks.below(line, j) => Err(CallRefusal::NotMoreUrgent),
            active => {
                self.state.pending = self.state.pending.without(line);
                self.state.lines.set(line, LinePlace::Handling);
                self.state.suspended.push(active);
                self.state.active = Routine::Handler(line);
                Ok(Accepted::Done)
            }
        }
    }

    pub(crate) fn pended(&mut self) -> Answer
        ensures { Makes self.old self.new result (pended (state_of self.old)) }
    {
        match self.state.active {
            _ if !self.state.request => Err(CallRefusal::NoRequest),
            _ if !self.state.delayed => Err(CallRefusal::DelayedOff),
            Routine::Task(t) => {
                self.state.suspended.push(Routine::Task(t));
                self.state.start_delayed();
                Ok(Accepted::Done)
            }
            Routine::Direct | Routine::Delayed | Routine::Handler(_) => Err(
                CallRefusal::OtherRoutine,
            ),
        }
    }

    pub(crate) fn gone<P: Policy>(&mut self, policy: &P) -> Answer
        ensures { Makes self.old self.new result (gone (board_of self.old) (P.Policy.chosen policy.now) (state_of self.old)) }
    {
        let standing = self.state.standing();
        self.state.advance(standing, &self.plan, policy)
    }

    pub(crate) fn signalled(&mut self, set: Set<TaskNo>) -> Answer
        ensures { Makes self.old self.new result (signalled (board_of self.old) set.bits (state_of self.old)) }
    {
        match self.state.active {
            Routine::Task(t) if !self.state.in_application(t) => Err(CallRefusal::OtherPlace),
            Routine::Task(_) if !set.within(self.plan.counts().tasks) => Err(CallRefusal::Unknown),
            Routine::Task(t) => {
                self.state.tasks.keep(t, set);
                self.state.delayed = false;
                Ok(Accepted::Done)
            }
            Routine::Direct | Routine::Delayed | Routine::Handler(_) => Err(
                CallRefusal::OtherRoutine,
            ),
        }
    }

    pub(crate) fn blocked(&mut self) -> Answer
        ensures { Makes self.old self.new result (blocked (state_of self.old)) }
    {
        match self.state.active {
            Routine::Task(t) if !self.state.in_application(t) => Err(CallRefusal::OtherPlace),
            Routine::Task(t) => {
                self.state.tasks.move_to(t, TaskPlace::Blocking);
                self.state.delayed = false;
                Ok(Accepted::Done)
            }
            Routine::Direct | Routine::Delayed | Routine::Handler(_) => Err(
                CallRefusal::OtherRoutine,
            ),
        }
    }

    pub(crate) fn posted(&mut self, event: EventNo) -> Answer
        ensures { Makes self.old self.new result (posted_event (board_of self.old) event (state_of self.old)) }
    {
        match self.state.active {
            Routine::Handler(i) if !self.state.in_handler(i) => Err(CallRefusal::OtherPlace),
            Routine::Handler(_) if event.0 >= self.plan.counts().events => Err(
                CallRefusal::Unknown,
            ),
            Routine::Handler(i) => {
                self.state.posted = self.state.posted.with(event);
                self.state.lines.set(i, LinePlace::Posted);
                Ok(Accepted::Done)
            }
            Routine::Direct | Routine::Delayed | Routine::Task(_) => Err(CallRefusal::OtherRoutine),
        }
    }

    pub(crate) fn left(&mut self) -> Answer
        ensures { Makes self.old self.new result (left (state_of self.old)) }
    {
        match self.state.active {
            Routine::Handler(i) if !self.state.in_handler(i) => Err(CallRefusal::OtherPlace),
            Routine::Handler(i) => {
                self.state.lines.set(i, LinePlace::Idle);
                self.state.go_back();
                Ok(Accepted::Done)
            }
            Routine::Direct | Routine::Delayed | Routine::Task(_) => Err(CallRefusal::OtherRoutine),
        }
    }

    // Enables the line or disables it.
    pub(crate) fn set_enabled(&mut self, line: LineNo, on: bool) -> Answer
        ensures { Makes self.old self.new result (enable_by (board_of self.old) line on (state_of self.old).active (state_of self.old)) }
    {
        match self.state.active {
            Routine::Direct | Routine::Delayed => Err(CallRefusal::OtherRoutine),
            Routine::Task(t) if !self.state.in_application(t) => Err(CallRefusal::OtherPlace),
            Routine::Handler(i) if !self.state.in_handler(i) => Err(CallRefusal::OtherPlace),
            Routine::Task(_) | Routine::Handler(_) => {
                self.known(line)?;
                self.state.enabled = if on {
                    self.state.enabled.with(line)
                } else {
                    self.state.enabled.without(line)
                };
                Ok(Accepted::Done)
            }
        }
    }
}
