// The places of the routines. The number of each kind is its own cast: a trait or `From` would need an impl for each kind
// all the same, and a ghost member besides.
ghost use Rattle.std.specs.Prelude.{◌≡◌};
ghost use Rattle.kernel.specs.Numbers.{line_place_number, scheduler_place_number, task_place_number};

// A task's place: what its next step does.
#[derive(Clone, Copy, Debug, PartialEq, Eq)]
pub enum TaskPlace {
    // in application code
    Application = 0,
    // adds the kept set to the ready set
    Adding = 1,
    // sets the request
    Requesting = 2,
    // enables the delayed scheduler
    Opening = 3,
    // waits until the request is off
    Waiting = 4,
    // leaves the ready set
    Blocking = 5,
    // hands over to the direct scheduler
    Yielding = 6,
}

impl TaskPlace {
    pub fn number(self) -> u8
        ensures { result ≡ task_place_number self }
    {
        self as u8
    }
}

// A scheduler's place: what its next step does.
#[derive(Clone, Copy, Debug, PartialEq, Eq)]
pub enum SchedulerPlace {
    // copies the posted events
    Copying = 0,
    // wakes the tasks of the copied events
    Waking = 1,
    // takes the copied events out of the posted ones
    Clearing = 2,
    // asks the policy
    Choosing = 3,
    // notes in the current task's record how it was left
    Noting = 4,
    // makes the chosen task current
    Switching = 5,
    // loads the current task's resume flag
    Loading = 6,
    // returns
    Returning = 7,
}

impl SchedulerPlace {
    pub fn number(self) -> u8
        ensures { result ≡ scheduler_place_number self }
    {
        self as u8
    }
}

// A line's place.
#[derive(Clone, Copy, Debug, PartialEq, Eq)]
pub enum LinePlace {
    Idle = 0,
    // in its handler
    Handling = 1,
    // posted, and the request is not yet set
    Posted = 2,
}

impl LinePlace {
    pub fn number(self) -> u8
        ensures { result ≡ line_place_number self }
    {
        self as u8
    }
}
