// A board's plan: every value of `Plan` is a legal one.
ghost use Rattle.std.specs.Prelude.{ℕ, ◌^◌, ◌<◌, ◌≤◌, map, take, slice_index};
ghost use Rattle.board.specs.Plans.{Filled, bits_of};

use crate::kinds::{PolicyKind, RankRule};
use crate::table::Table;
use numbers::number::TaskNo;
use numbers::set::Set;

// The tables that a plan is made from: an entry for each task, line and event. The policy and the
// nesting rule stand there by number, since tables from outside can hold one that names nothing.
#[derive(Clone, Copy)]
pub struct Tables<'a> {
    pub policy: u8,
    pub rule: u8,
    pub start: Set<TaskNo>,
    pub favoured: Set<TaskNo>,
    pub priorities: &'a [u8],
    pub levels: &'a [u8],
    pub wakes: &'a [Set<TaskNo>],
}

// How many tasks, lines and events a plan has.
#[derive(Clone, Copy, Debug, PartialEq, Eq)]
pub struct Counts {
    pub tasks: u8,
    pub lines: u8,
    pub events: u8,
}

// Clauses see a plan by its `parts`. No model: a plan is copied inside other structs, which a value with a model is not.
#[derive(Clone, Copy)]
pub struct Plan {
    pub(crate) policy: PolicyKind,
    pub(crate) rule: RankRule,
    pub(crate) start: Set<TaskNo>,
    pub(crate) favoured: Set<TaskNo>,
    pub(crate) priorities: Table<u8>,
    pub(crate) levels: Table<u8>,
    pub(crate) wakes: Table<Set<TaskNo>>,
    ghost some: { 1 ≤ priorities.count },
    ghost known_start: { start.bits < 2 ^ priorities.count },
    ghost known_favoured: { favoured.bits < 2 ^ priorities.count },
    ghost known_wakes: { (e : ℕ) → slice_index (map bits_of wakes.places) e < 2 ^ priorities.count },
    ghost priorities_filled: { Filled priorities.count (take priorities.count priorities.places) priorities.places },
    ghost levels_filled: { Filled levels.count (take levels.count levels.places) levels.places },
    ghost wakes_filled: { Filled wakes.count (map bits_of (take wakes.count wakes.places)) (map bits_of wakes.places) },
}
