//! Why a text is no schedule or no log of answers, or a replay stopped.

ghost use Rattle.std.specs.Prelude.{◌≡◌};
ghost use Rattle.schedule_text.specs.declared.fault.ReplayFault.TheVariants as replay_faults;
ghost use Rattle.schedule_text.specs.declared.fault.ScheduleFault.TheVariants as schedule_faults;
ghost use Rattle.schedule_text.specs.declared.fault.AnswersFault.TheVariants as answers_faults;
ghost use Rattle.schedule_text.specs.Replaying.{replay_fault};

use std::alloc::{AllocError, AllocFailed};
use thiserror::Error;

/// Why a replay stopped. Lines and columns count from 1.
#[derive(Clone, Copy, Debug, PartialEq, Eq, Drop, Error)]
pub enum ReplayFault {
    /// The first byte with which no line of its place goes on, or the place after a line that has no end.
    #[error("line {line} column {column}: bad text")]
    BadText { line: u64, column: usize },
    /// A number of the header is out of its limits.
    #[error("line 1: bad config")]
    BadConfig,
    /// The reader failed. It is not asked again.
    #[error("read fault")]
    Read,
    /// The writer failed, or took nothing. What it took before is a beginning of the text.
    #[error("write fault")]
    Write,
    /// The allocator refused.
    #[error("no memory")]
    Memory,
}

/// Why a text is no schedule. Lines and columns count from 1.
#[derive(Clone, Copy, Debug, PartialEq, Eq, Drop, Error)]
pub enum ScheduleFault {
    /// The first byte with which no line of its place goes on, or the place after a line that has no end.
    #[error("line {line} column {column}: bad text")]
    BadText { line: u64, column: usize },
    /// A number of the header is out of its limits.
    #[error("line 1: bad config")]
    BadConfig,
    /// The allocator refused.
    #[error("no memory")]
    Memory,
}

/// Why a text is no log of answers. Lines and columns count from 1.
#[derive(Clone, Copy, Debug, PartialEq, Eq, Drop, Error)]
pub enum AnswersFault {
    /// The first byte with which no line of answers goes on, or the place after a line that has no end.
    #[error("line {line} column {column}: bad text")]
    BadText { line: u64, column: usize },
    /// The allocator refused.
    #[error("no memory")]
    Memory,
}

impl From<AnswersFault> for ReplayFault {
    ghost from_gives = { λ fault e. e ≡ replay_fault fault };

    fn from(fault: AnswersFault) -> ReplayFault {
        match fault {
            AnswersFault::BadText { line, column } => ReplayFault::BadText { line, column },
            AnswersFault::Memory => ReplayFault::Memory,
        }
    }
}

impl From<AllocError> for ReplayFault {
    ghost from_gives = { λ _ e. e ≡ replay_faults.Memory };

    fn from(_e: AllocError) -> ReplayFault {
        ReplayFault::Memory
    }
}

impl<T: Drop> From<AllocFailed<T>> for ScheduleFault {
    ghost from_gives = { λ _ e. e ≡ schedule_faults.Memory };

    fn from(_e: AllocFailed<T>) -> ScheduleFault {
        ScheduleFault::Memory
    }
}

impl<T: Drop> From<AllocFailed<T>> for AnswersFault {
    ghost from_gives = { λ _ e. e ≡ answers_faults.Memory };

    fn from(_e: AllocFailed<T>) -> AnswersFault {
        AnswersFault::Memory
    }
}

impl From<AllocError> for AnswersFault {
    ghost from_gives = { λ _ e. e ≡ answers_faults.Memory };

    fn from(_e: AllocError) -> AnswersFault {
        AnswersFault::Memory
    }
}
