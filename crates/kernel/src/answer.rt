// What a call answers.
ghost use Rattle.std.specs.Prelude.{◌≡◌};
ghost use Rattle.kernel.specs.Numbers.{answer_number};

// How an accepted call went.
#[derive(Clone, Copy, Debug, PartialEq, Eq)]
pub enum Accepted {
    Done = 0,
    // a raise of a line that was not pending, and of one that was
    New = 100,
    Merged = 101,
}

// Why a call is refused.
#[derive(Clone, Copy, Debug, PartialEq, Eq)]
pub enum CallRefusal {
    // the plan lacks the task, the line or the event
    Unknown = 11,
    NotPending = 12,
    NotEnabled = 13,
    // the line's handler is active or suspended
    AlreadyNested = 14,
    // the active routine is a handler whose rank is not strictly greater
    NotMoreUrgent = 15,
    NoRequest = 16,
    // the delayed scheduler is not enabled
    DelayedOff = 17,
    // the active routine is of another kind than the call is for
    OtherRoutine = 18,
    // the active routine is at a place where it doesn't make the call
    OtherPlace = 19,
}

pub type Answer = Result<Accepted, CallRefusal>;

// The number that stands for an answer. No `From`: neither `u8` nor `Result` is a type of this crate.
pub fn number(answer: Answer) -> u8
    ensures { result ≡ answer_number answer }
{
    match answer {
        Ok(accepted) => accepted as u8,
        Err(refusal) => refusal as u8,
    }
}
