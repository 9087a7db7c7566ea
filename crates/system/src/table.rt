// The records of the tasks and the places of the lines, by number.
ghost use Rattle.std.specs.Prelude.{◌≡◌, map, set, replicate, slice_index_or, slice_set};
ghost use Rattle.kernel.specs.declared.place.LinePlace.TheVariants.{Idle};
ghost use Rattle.kernel.specs.States.{fresh, at_kept, at_place, at_resume};
ghost use Rattle.system.specs.Tables.{noted, noted_all};

use kernel::place::{LinePlace, TaskPlace};
use numbers::number::{LineNo, TaskNo};
use numbers::set::Set;

#[derive(Clone, Copy)]
pub struct TaskRecord {
    pub place: TaskPlace,
    // whether the delayed scheduler is to be enabled when the task goes on
    pub resume: bool,
    // the set that the task keeps to signal
    pub kept: Set<TaskNo>,
}

// By task number; sixteen, since memory is fixed. No model, since a state is copied with it.
#[derive(Clone, Copy)]
pub struct TaskTable {
    pub(crate) records: [TaskRecord; 16],
}

impl TaskRecord {
    fn fresh() -> TaskRecord
        ensures { noted result ≡ fresh }
    {
        TaskRecord {
            place: TaskPlace::Application,
            resume: true,
            kept: Set::from_bits(0),
        }
    }
}

#[tactic(auto, using(crate::proofs::Noting::noted_set))]
impl TaskTable {
    pub(crate) fn new() -> TaskTable
        ensures { noted_all result.records ≡ replicate 16 fresh }
    {
        TaskTable {
            records: [TaskRecord::fresh(); 16],
        }
    }

    pub fn get(&self, task: TaskNo) -> TaskRecord
        ensures { noted result ≡ slice_index_or (noted_all self.now.records) task.0 fresh }
    {
        self.records
            .get(task.0 as usize)
            .copied()
            .unwrap_or(TaskRecord::fresh())
    }

    // The record is lent by its index: a proof knows nothing of what a slice's `get_mut` leaves. Each change is a function
    // of its own: one that takes a closure would owe clauses on the closure, longer than these two lines.
    pub(crate) fn move_to(&mut self, task: TaskNo, place: TaskPlace)
        ensures { noted_all self.new.records ≡ slice_set (noted_all self.old.records) task.0 (at_place place (slice_index_or (noted_all self.old.records) task.0 fresh)) }
    {
        if (task.0 as usize) < self.records.len() {
            let record = &mut self.records[task.0 as usize];
            record.place = place;
        }
    }

    pub(crate) fn note_resume(&mut self, task: TaskNo, resume: bool)
        ensures { noted_all self.new.records ≡ slice_set (noted_all self.old.records) task.0 (at_resume resume (slice_index_or (noted_all self.old.records) task.0 fresh)) }
    {
        if (task.0 as usize) < self.records.len() {
            let record = &mut self.records[task.0 as usize];
            record.resume = resume;
        }
    }

    // Keeps a set for the task to signal.
    pub(crate) fn keep(&mut self, task: TaskNo, kept: Set<TaskNo>)
        ensures { noted_all self.new.records ≡ slice_set (noted_all self.old.records) task.0 (at_place TaskPlace.Adding (at_kept kept.bits (slice_index_or (noted_all self.old.records) task.0 fresh))) }
    {
        if (task.0 as usize) < self.records.len() {
            let record = &mut self.records[task.0 as usize];
            record.kept = kept;
            record.place = TaskPlace::Adding;
        }
    }
}

// By line number. A type of its own: places and records are changed in ways of their own.
#[derive(Clone, Copy)]
pub struct LineTable {
    pub(crate) places: [LinePlace; 16],
}

impl LineTable {
    pub(crate) fn new() -> LineTable
        ensures { result.places ≡ replicate 16 Idle }
    {
        LineTable {
            places: [LinePlace::Idle; 16],
        }
    }

    pub fn get(&self, line: LineNo) -> LinePlace
        ensures { result ≡ slice_index_or self.now.places line.0 Idle }
    {
        self.places
            .get(line.0 as usize)
            .copied()
            .unwrap_or(LinePlace::Idle)
    }

    // By index, as in `TaskTable`.
    pub(crate) fn set(&mut self, line: LineNo, place: LinePlace)
        ensures { self.new.places ≡ slice_set self.old.places line.0 place }
    {
        if (line.0 as usize) < self.places.len() {
            self.places[line.0 as usize] = place;
        }
    }
}
