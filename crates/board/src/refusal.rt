// Why tables are no plan.
use numbers::number::EventNo;
use thiserror::Error;

#[derive(Clone, Copy, Debug, PartialEq, Eq, Error)]
pub enum PlanRefusal {
    #[error("a plan has 1 to 16 tasks")]
    TaskCount,
    #[error("a plan has at most 16 lines")]
    LineCount,
    #[error("a plan has at most 16 events")]
    EventCount,
    #[error("no policy has this number")]
    PolicyNumber,
    #[error("no nesting rule has this number")]
    RuleNumber,
    #[error("the start set holds a task that the plan lacks")]
    StartSet,
    #[error("the favoured set holds a task that the plan lacks")]
    FavouredSet,
    // with the numbers of tasks and of lines, whose tables stand before the wake sets
    #[error("the wake set of event {event} holds a task that the plan lacks", event = .event.0)]
    WakeSet {
        tasks: u8,
        lines: u8,
        event: EventNo,
    },
}
