//! What a log is found to be.

ghost use Rattle.std.specs.Prelude.{◌≡◌, Some};
ghost use Rattle.rcu_judge.specs.Verdict.{name_of, rule_of};

use rcu_model::Event;
use std::alloc::AllocError;
use std::fmt;
use thiserror::Error;

/// The rules of the abstract machine, one for each kind of event.
#[derive(Clone, Copy, Debug, PartialEq, Eq, Drop)]
pub enum Rule {
    /// A section opens once, and closes while it is open.
    Section,
    /// A section follows the links of the objects that it holds.
    Reading,
    /// An object is published once, and leaves its chain while it is linked.
    Publishing,
    /// An object that was cut is retired once: [saferecl.rcu]'s scheduling of an evaluation.
    Retirement,
    /// A retired object is queued once, and its callback runs once, when no section that it awaits is left: `call_rcu`.
    Reclaiming,
    /// A grace period and a barrier are over once, when nothing that they await is left: `synchronize_rcu`,
    /// `rcu_barrier`.
    Asking,
}

impl Rule {
    /// The rule that an event goes by.
    pub fn of(event: &Event) -> Rule
        ensures { result ≡ rule_of event.now }
    {
        match event {
            Event::Open(_) | Event::Close(_) => Rule::Section,
            Event::First { .. } | Event::Next { .. } | Event::Touch { .. } => Rule::Reading,
            Event::Push { .. } | Event::Replace { .. } | Event::Cut { .. } => Rule::Publishing,
            Event::Retire(_) => Rule::Retirement,
            Event::Queue { .. } | Event::Run(_) => Rule::Reclaiming,
            Event::Ask(_) | Event::Answer(_) | Event::Bar(_) | Event::Clear(_) => Rule::Asking,
        }
    }
}

/// Writes the name by which verdicts and documents call the rule.
impl fmt::Display for Rule {
    ghost output = { λ rule. Some (name_of rule) };

    fn fmt<W: fmt::Write>(&self, f: &mut fmt::Formatter<W>) -> fmt::Result {
        match self {
            Rule::Section => f.write_str("D3"),
            Rule::Reading => f.write_str("D4"),
            Rule::Publishing => f.write_str("D5"),
            Rule::Retirement => f.write_str("D6"),
            Rule::Reclaiming => f.write_str("D7"),
            Rule::Asking => f.write_str("D8"),
        }
    }
}

/// What a log is found to be.
#[derive(Clone, Copy, Debug, PartialEq, Eq, Drop)]
pub enum Verdict {
    /// It is a run of the abstract machine.
    Yes,
    /// It is none.
    No {
        /// The first event that breaks its rule, counted from 1.
        at: usize,
        /// The rule that this event breaks.
        rule: Rule,
    },
}

/// Why a log is not judged.
#[derive(Clone, Copy, Debug, PartialEq, Eq, Drop, Error)]
pub enum LogFault {
    /// Memory for what the log says was refused.
    #[error("no memory")]
    Memory,
}

impl From<AllocError> for LogFault {
    ghost use Rattle.rcu_judge.specs.declared.verdict.LogFault.TheVariants.{Memory};

    ghost from_gives = { λ _ fault. fault ≡ Memory };

    fn from(_refused: AllocError) -> Self {
        LogFault::Memory
    }
}

/// Why an event is not taken.
#[derive(Clone, Copy, Debug, PartialEq, Eq, Drop, Error)]
pub enum JudgeFault {
    /// Memory for what the event says was refused.
    #[error("no memory")]
    Memory,
    /// There are more events than can be counted.
    #[error("too many events")]
    TooLong,
}

impl From<AllocError> for JudgeFault {
    ghost use Rattle.rcu_judge.specs.declared.verdict.JudgeFault.TheVariants.{Memory};

    ghost from_gives = { λ _ fault. fault ≡ Memory };

    fn from(_refused: AllocError) -> Self {
        JudgeFault::Memory
    }
}
