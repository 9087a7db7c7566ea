// Policies: which of the ready tasks is chosen.
ghost use Rattle.std.specs.Prelude.{◌≡◌, ℕ, ◌^◌, ◌<◌, Some, Option};
ghost use Rattle.numbers.specs.declared.number.TaskNo.{TaskNo};
ghost use Rattle.policy.specs.Policies.{NoneExactlyWhenEmpty, OnlyFrom, Exactly, StaysOrNearest, Favours, favour, stay};
ghost use Rattle.policy.specs.Priorities.{HighestThenLowest, by_priority, StaysOrNearestOfHighest, share, leaders};
ghost use Rattle.policy.specs.Staying.{answered_empty, stay_answers, answered_member, stay_settles};
ghost use Rattle.policy.specs.Leading.{share_answers};
ghost use Rattle.policy.specs.Favouring.{favour_empty, favour_member, favour_settles};

use crate::nearest::nearest;
use crate::priorities::Priorities;
use numbers::number::TaskNo;
use numbers::set::Set;

pub trait Policy {
    // The task that is chosen from the ready tasks, with the current task.
    ghost chosen: { Self → ℕ → TaskNo → Option TaskNo };

    fn choose(&self, ready: Set<TaskNo>, current: TaskNo) -> Option<TaskNo>
        ensures { result ≡ chosen self.now ready.bits current };

    ghost empty: { (p : Self) (s : ℕ) (c : TaskNo) → s < 2 ^ 16 → NoneExactlyWhenEmpty s (chosen p s c) };

    ghost member: { (p : Self) (s : ℕ) (c : TaskNo) → s < 2 ^ 16 → OnlyFrom s (chosen p s c) };

    // Asked again, with its answer as the current task, it answers the same.
    ghost settles: { (p : Self) (s : ℕ) (c t : TaskNo) → s < 2 ^ 16 → chosen p s c ≡ Some t → chosen p s t ≡ Some t };
}

// The current task if it is ready, otherwise the next one that is.
#[derive(Clone, Copy)]
pub struct Stay;

impl Policy for Stay {
    ghost chosen = { λ _ s c. stay s c };

    ghost empty = { λ p s c small. answered_empty s (stay s c) (stay_answers s c small) };

    ghost member = { λ p s c small. answered_member s (stay s c) (stay_answers s c small) };

    ghost settles = { λ p s c t small e. stay_settles s c t e };

    fn choose(&self, ready: Set<TaskNo>, current: TaskNo) -> Option<TaskNo>
        ensures is { result ≡ stay ready.bits current }
        ensures exactly { Exactly (StaysOrNearest ready.bits current) result }
    {
        nearest(ready, current)
    }
}

// The highest priority, and among equals the lowest number.
#[derive(Clone, Copy)]
pub struct Priority {
    pub priorities: Priorities,
}

impl Policy for Priority {
    ghost chosen = { λ p s _. by_priority p.priorities.of s };

    ghost empty = { λ p s c small. answered_empty s (by_priority p.priorities.of s) (share_answers p.priorities.of s small (record { 0 = 0 })) };

    ghost member = { λ p s c small. answered_member s (by_priority p.priorities.of s) (share_answers p.priorities.of s small (record { 0 = 0 })) };

    ghost settles = { λ p s c t small e. e };

    fn choose(&self, ready: Set<TaskNo>, _current: TaskNo) -> Option<TaskNo>
        ensures is { result ≡ by_priority self.now.priorities.of ready.bits }
        ensures exactly { Exactly (HighestThenLowest self.now.priorities.of ready.bits) result }
    {
        nearest(self.priorities.leaders(ready), TaskNo(0))
    }
}

// As `Stay`, among the tasks with the highest priority.
#[derive(Clone, Copy)]
pub struct Shared {
    pub priorities: Priorities,
}

impl Policy for Shared {
    ghost chosen = { λ p s c. share p.priorities.of s c };

    ghost empty = { λ p s c small. answered_empty s (share p.priorities.of s c) (share_answers p.priorities.of s small c) };

    ghost member = { λ p s c small. answered_member s (share p.priorities.of s c) (share_answers p.priorities.of s small c) };

    ghost settles = { λ p s c t small e. stay_settles (leaders p.priorities.of s) c t e };

    fn choose(&self, ready: Set<TaskNo>, current: TaskNo) -> Option<TaskNo>
        ensures is { result ≡ share self.now.priorities.of ready.bits current }
        ensures exactly { Exactly (StaysOrNearestOfHighest self.now.priorities.of ready.bits current) result }
    {
        nearest(self.priorities.leaders(ready), current)
    }
}

// A group of tasks that go first, over any policy. An empty group favours nobody.
#[derive(Clone, Copy)]
pub struct Favoured<P> {
    pub group: Set<TaskNo>,
    pub below: P,
}

impl<P: Policy> Policy for Favoured<P> {
    ghost chosen = { λ f s c. favour (P.Policy.chosen f.below) f.group.bits s c };

    ghost empty = { λ p s c small. favour_empty (P.Policy.chosen p.below) p.group.bits s small (P.Policy.empty p.below) c };

    ghost member = { λ p s c small. favour_member (P.Policy.chosen p.below) p.group.bits s small (P.Policy.member p.below) c };

    ghost settles = { λ p s c t small e. favour_settles (P.Policy.chosen p.below) p.group.bits s small (P.Policy.settles p.below) c t e };

    fn choose(&self, ready: Set<TaskNo>, current: TaskNo) -> Option<TaskNo>
        ensures is { result ≡ favour (P.Policy.chosen self.now.below) self.now.group.bits ready.bits current }
        ensures exactly { Exactly (Favours (P.Policy.chosen self.now.below) self.now.group.bits ready.bits current) result }
    {
        let favoured = ready.intersection(self.group);
        if favoured.is_empty() {
            self.below.choose(ready, current)
        } else {
            self.below.choose(favoured, current)
        }
    }
}
