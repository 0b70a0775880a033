//! What the program is asked to do.

ghost use Rattle.std.specs.Prelude.{◌≡◌};

use live_load::{Load, Target};
use torture_commands::Command;
use world::Flavour;

/// The most rounds of a run: as many as one has that a time alone ends.
pub const MOST_ROUNDS: u32 = 4_294_967_295;

/// The most seconds of a run.
pub const MOST_SECONDS: u32 = 86_400;

/// What the program is asked to do.
#[derive(Clone, Copy, Debug, PartialEq, Eq, Drop)]
pub enum Asked {
    /// A command over texts.
    Command(Command),
    /// A run of live threads.
    Run(Run),
    /// A script of calls.
    Calls,
}

/// A run of live threads.
#[derive(Clone, Copy, Debug, PartialEq, Eq, Drop)]
pub struct Run {
    /// How readers say where their sections end.
    pub flavour: Flavour,
    /// What they work on.
    pub target: Target,
    /// How many threads there are, and when they end.
    pub load: Load,
}

impl Run {
    ghost use Rattle.torture_run.specs.Limits.{is_run_within};

    /// Whether there are from 1 to 64 readers, 16 updaters, 8 workers and 4,294,967,295 rounds, and from 1 to 86,400
    /// seconds where there are any.
    pub fn is_within_limits(&self) -> bool
        ensures { result ≡ is_run_within self.now }
    {
        let load = &self.load;
        if !(1..=64).contains(&load.readers) || !(1..=16).contains(&load.updaters) {
            return false;
        }
        if !(1..=8).contains(&load.workers) || !(1..=MOST_ROUNDS).contains(&load.rounds) {
            return false;
        }
        match &load.seconds {
            Some(seconds) => (1..=MOST_SECONDS).contains(seconds),
            None => true,
        }
    }
}

impl Asked {
    ghost use Rattle.torture_run.specs.Limits.{is_asked_within};

    /// Whether the walk or the run, if it is one, is within its limits.
    pub fn is_within_limits(&self) -> bool
        ensures { result ≡ is_asked_within self.now }
    {
        match self {
            Asked::Command(command) => command.is_within_limits(),
            Asked::Run(run) => run.is_within_limits(),
            Asked::Calls => true,
        }
    }
}
