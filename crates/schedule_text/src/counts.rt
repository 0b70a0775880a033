//! What the end line counts.

ghost use Rattle.std.specs.Prelude.{◌≡◌};

use rcu_model::{Event, every_run_counts_its_state};

/// The numbers of the end line.
#[derive(Clone, Copy, Debug, PartialEq, Eq, Drop)]
pub struct Counts {
    /// Sections opened and not closed.
    pub sections: u64,
    /// Objects retired and not run.
    pub waiting: u64,
    /// Objects run.
    pub runs: u64,
}

impl Counts {
    ghost use Rattle.schedule_text.specs.Answers.{counts_of, counts_in};
    ghost use Rattle.rcu_model.specs.Machine.{IsRun, state_after};

    /// The counts of a log.
    pub fn of(log: &[Event]) -> Counts
        ensures counts { result ≡ counts_of log.now }
        // They are those of the machine's state after the log.
        ensures state { IsRun log.now → result ≡ counts_in (state_after log.now) }
    {
        every_run_counts_its_state();
        let mut opened = 0u64;
        let mut closed = 0u64;
        let mut retired = 0u64;
        let mut runs = 0u64;
        for event in log {
            match event {
                Event::Open(_) => opened += 1,
                Event::Close(_) => closed += 1,
                Event::Retire(_) => retired += 1,
                Event::Run(_) => runs += 1,
                _ => {}
            }
        }
        Counts {
            sections: opened.saturating_sub(closed),
            waiting: retired.saturating_sub(runs),
            runs,
        }
    }
}
