//! The refusals that calls answered, and what is found wrong after one.

use crate::answers::AnswerText;
use crate::operations::Operation;
use std::fmt;
use thiserror::Error;

/// A call that may be refused memory, or that is looked at.
#[derive(Clone, Copy, Debug, PartialEq, Eq, Drop)]
pub enum Call {
    /// `World::new`.
    New,
    /// `World::new_at`.
    NewAt,
    /// `World::step`.
    Step,
    /// `World::drain`.
    Drain,
    /// `World::log`.
    Log,
    /// `CallbackQueue::push`.
    Push,
    /// `CallbackQueue::reserve`.
    Reserve,
    /// `CallbackQueue::seal`, `note` and `advance`.
    Ripen,
    /// `CallbackQueue::pop_ready`.
    PopReady,
    /// `Registry::new`.
    NewRegistry,
    /// `Registry::claim`.
    Claim,
    /// `rcu_judge::check_log`.
    CheckLog,
    /// `schedule::read_line`.
    ReadLine,
    /// `schedule::read_schedule`.
    ReadSchedule,
    /// `schedule::read_answers`.
    ReadAnswers,
    /// `schedule::Replay::feed`.
    Feed,
    /// `schedule::Replay::finish`.
    Finish,
    /// `schedule::replay`.
    Replay,
    /// A call that the scenario needs for itself, as a copy.
    Own,
}

impl fmt::Display for Call {
    fn fmt<W: fmt::Write>(&self, f: &mut fmt::Formatter<W>) -> fmt::Result {
        f.write_str(match self {
            Call::New => "new",
            Call::NewAt => "new_at",
            Call::Step => "step",
            Call::Drain => "drain",
            Call::Log => "log",
            Call::Push => "push",
            Call::Reserve => "reserve",
            Call::Ripen => "ripen",
            Call::PopReady => "pop_ready",
            Call::NewRegistry => "new_registry",
            Call::Claim => "claim",
            Call::CheckLog => "check_log",
            Call::ReadLine => "read_line",
            Call::ReadSchedule => "read_schedule",
            Call::ReadAnswers => "read_answers",
            Call::Feed => "feed",
            Call::Finish => "finish",
            Call::Replay => "replay",
            Call::Own => "own",
        })
    }
}

/// What is found wrong of a call.
#[derive(Clone, Copy, Debug, PartialEq, Eq, Drop, Error)]
pub enum Finding {
    /// A refusal left something else than there was.
    #[error("{0}: changed by a refusal")]
    Changed(Call),
    /// It was refused twice, and one request of a run is refused.
    #[error("{0}: refused a second time")]
    RefusedAgain(Call),
    /// It answered something else than was worked out.
    #[error("{0}: not what it has to be")]
    Wrong(Call),
}

/// What was refused: a call, or a step of an operation, which answered this when it was made again.
#[derive(Clone, Copy, Drop)]
enum Refused {
    Call(Call),
    Step(Operation, AnswerText),
}

impl fmt::Display for Refused {
    fn fmt<W: fmt::Write>(&self, f: &mut fmt::Formatter<W>) -> fmt::Result {
        match self {
            Refused::Call(call) => write!(f, "{call}"),
            Refused::Step(operation, answer) => write!(f, "{} {operation}: {answer}", Call::Step),
        }
    }
}

/// How many refusals calls answered, and what answered the last one.
#[derive(Clone, Copy, Drop)]
pub struct Ledger {
    refusals: u32,
    last: Option<Refused>,
}

/// Writes the number of refusals, and what was refused last, if anything was.
impl fmt::Display for Ledger {
    fn fmt<W: fmt::Write>(&self, f: &mut fmt::Formatter<W>) -> fmt::Result {
        match self.last {
            Some(refused) => write!(f, "{} {refused}", self.refusals),
            None => write!(f, "{}", self.refusals),
        }
    }
}

impl Ledger {
    /// No refusal yet.
    pub fn new() -> Ledger {
        Ledger {
            refusals: 0,
            last: None,
        }
    }

    /// Notes one more refusal.
    fn add(&mut self, refused: Refused) {
        self.refusals = self.refusals.saturating_add(1);
        self.last = Some(refused);
    }

    /// Notes that the call was refused.
    pub fn note(&mut self, call: Call) {
        self.add(Refused::Call(call));
    }

    /// Notes that a step of the operation was refused, which answered this when it was made again.
    pub fn note_step(&mut self, operation: Operation, answer: AnswerText) {
        self.add(Refused::Step(operation, answer));
    }

    /// What a call answers that changes nothing, made again where it is refused: `RefusedAgain` where that is refused
    /// too.
    pub fn again<T, E: Drop, F: Fn() -> Result<T, E> + Drop>(
        &mut self,
        call: Call,
        make: F,
    ) -> Result<T, Finding>
        requires { F.IsAlwaysCallable make }
    {
        match make() {
            Ok(value) => Ok(value),
            Err(_) => {
                self.note(call);
                make().map_err(|_| Finding::RefusedAgain(call))
            }
        }
    }
}
