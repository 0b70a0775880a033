//! Logs, judged as they grow.

ghost use Rattle.std.specs.Prelude.{◌≡◌, ◌-◌, ◌^◌, ◌↔◌, ◌++◌, ◌∷◌, [], List, length, OnOk, OnErr, IfOk, Err};
ghost use Rattle.rcu_model.specs.declared.event.Event.{Event};
ghost use Rattle.rcu_judge.specs.declared.verdict.Verdict.TheVariants.{Yes};
ghost use Rattle.rcu_judge.specs.declared.verdict.JudgeFault.TheVariants.{TooLong};
ghost use Rattle.rcu_model.specs.Machine.{IsRun};
ghost use Rattle.rcu_judge.specs.Verdict.{Judges};
ghost use Rattle.rcu_judge.specs.Judge.{HasTaken};

use crate::checker::Checker;
use crate::verdict::{JudgeFault, LogFault, Rule, Verdict};
use rcu_model::Event;
use std::alloc::Global;

/// A judge of a log that is told event by event: whether the events that it has taken are a run of the abstract
/// machine, or else the first of them that breaks its rule. It keeps what is present: open sections and what they got,
/// objects whose callbacks have not run, asks and barriers that are not over. What is past it knows by the runs of its
/// numbers. Beside a search among these runs, and one among the queued objects once most of those that came beside them
/// are gone, an event takes constant time, amortized and on the average (its maps hash without a secret).
#[derive(Drop)]
pub struct Judge {
    checker: Checker,
    // How many events were taken, as long as the verdict is `Yes`.
    taken: usize,
    verdict: Verdict,
}

impl Judge {
    /// A judge that has taken no event. It waits for nothing and takes no memory yet.
    pub fn new(alloc: Global) -> Self
        ensures { HasTaken result [] }
    {
        Judge {
            checker: Checker::new(alloc),
            taken: 0,
            verdict: Verdict::Yes,
        }
    }

    /// Takes the next event. After one that breaks its rule, the verdict stays.
    ///
    /// # Errors
    /// `Memory` where memory was refused, and `TooLong` after 2^64 - 1 events that are a run. The event is then not
    /// taken: the judge is as it was, and the same event may be given again.
    pub fn take(&mut self, event: &Event) -> Result<(), JudgeFault>
        ensures taken { OnOk result ((log : List Event) → HasTaken self.old log → HasTaken self.new (log ++ event.now ∷ [])) }
        ensures refused { OnErr result ((log : List Event) → HasTaken self.old log → HasTaken self.new log) }
        ensures too_long { result ≡ Err TooLong → (log : List Event) → HasTaken self.old log → length log ≡ 2 ^ 64 - 1 }
    {
        let Verdict::Yes = self.verdict else {
            return Ok(());
        };
        let Some(at) = self.taken.checked_add(1) else {
            return Err(JudgeFault::TooLong);
        };
        if !self.checker.follow(event)? {
            self.verdict = Verdict::No {
                at,
                rule: Rule::of(event),
            };
            return Ok(());
        }
        self.taken = at;
        Ok(())
    }

    /// How many events were taken, as long as they are a run.
    pub fn taken(&self) -> usize
        ensures { (log : List Event) → HasTaken self.now log → IsRun log → result ≡ length log }
    {
        self.taken
    }

    /// The verdict on the events that were taken.
    pub fn verdict(&self) -> Verdict
        ensures { (log : List Event) → HasTaken self.now log → Judges result log }
    {
        self.verdict
    }
}

/// Whether the log is a run of the abstract machine, or else the first event that breaks its rule, and that rule. Takes
/// any log, in memory linear in its length, and on the average in time that is so, beside the searches of a [`Judge`],
/// where numbers count up in a few threads of order (its maps hash without a secret).
///
/// # Errors
/// `Memory` where memory was refused.
pub fn check_log(alloc: Global, log: &[Event]) -> Result<Verdict, LogFault>
    ensures judged { IfOk result (λ verdict. Judges verdict log.now) }
    ensures exactly { IfOk result (λ verdict. (verdict ≡ Yes) ↔ IsRun log.now) }
{
    let mut judge = Judge::new(alloc);
    for event in log {
        match judge.take(event) {
            Ok(()) => {}
            Err(JudgeFault::Memory) => return Err(LogFault::Memory),
            Err(JudgeFault::TooLong) => unreachable!(),
        }
    }
    Ok(judge.verdict())
}
