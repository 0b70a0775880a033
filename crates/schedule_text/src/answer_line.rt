//! A line of answers.

use crate::counts::Counts;
use rcu_model::Event;

/// A line of answers, as `replay` writes them. A log of events in this text may come from any program.
#[derive(Clone, Copy, Debug, PartialEq, Eq, Drop)]
pub enum AnswerLine {
    /// One event, or two joined.
    Events { first: Event, second: Option<Event> },
    /// A step without an event.
    Quiet,
    /// A step that is to be tried again.
    Wait,
    /// A step that needs a lock that is held.
    Blocked,
    /// A worker that found its queue empty.
    Idle,
    /// A refusal, by its number.
    Refused(u64),
    /// The end line.
    End(Counts),
}
