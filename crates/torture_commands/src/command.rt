//! What the program is asked to do.

ghost use Rattle.std.specs.Prelude.{◌≡◌, ◌+◌, IsTrue};
ghost use Rattle.world_state.specs.Limits.{is_within_limits};

use world::Config;

/// The most lines of a walk.
pub const MOST_LINES: u32 = 1_000_000;

/// What the program is asked to do.
#[derive(Clone, Copy, Debug, PartialEq, Eq, Drop)]
pub enum Command {
    /// Answers each line of a schedule.
    Replay,
    /// Judges the log that answers tell.
    Check,
    /// Judges the log that answers tell, up to the first wrong event.
    Follow,
    /// Draws a schedule, steps it and judges its log.
    Walk(Walk),
}

/// A schedule that is to be drawn.
#[derive(Clone, Copy, Debug, PartialEq, Eq, Drop)]
pub struct Walk {
    /// The world in which it goes.
    pub config: Config,
    /// How many lines are drawn, at most 1,000,000.
    pub lines: u32,
    /// What it is drawn by: the same seed draws the same lines.
    pub seed: u64,
    /// Whether the schedule is printed, in place of what became of it.
    pub schedule: bool,
    /// Who stops for good, if anybody does.
    pub stop: Option<Stop>,
}

/// An actor that stops for good.
#[derive(Clone, Copy, Debug, PartialEq, Eq, Drop)]
pub struct Stop {
    /// Its number among all actors, from 0: first the readers, then the updaters, then the workers.
    pub actor: u32,
    /// The first line that it does not get, from 1 to 1,000,000.
    pub from: u32,
}

/// How many actors a world has.
pub fn actors(config: &Config) -> u32
    requires { IsTrue (is_within_limits config.now) }
    ensures { result ≡ config.now.readers + config.now.updaters + config.now.workers }
{
    config.readers + config.updaters + config.workers
}

impl Stop {
    ghost use Rattle.torture_commands.specs.Limits.{is_stop_within};

    /// Whether there is such an actor and such a line.
    fn is_within_limits(&self, config: &Config) -> bool
        requires { IsTrue (is_within_limits config.now) }
        ensures { result ≡ is_stop_within config.now self.now }
    {
        self.actor < actors(config) && (1..=MOST_LINES).contains(&self.from)
    }
}

impl Walk {
    ghost use Rattle.torture_commands.specs.Limits.{is_walk_within};

    /// Whether a world of this config can be made, the lines are at most 1,000,000, and who stops is there.
    pub fn is_within_limits(&self) -> bool
        ensures { result ≡ is_walk_within self.now }
    {
        if !self.config.is_within_limits() || self.lines > MOST_LINES {
            return false;
        }
        match &self.stop {
            Some(stop) => stop.is_within_limits(&self.config),
            None => true,
        }
    }
}

impl Command {
    ghost use Rattle.torture_commands.specs.Limits.{is_within};

    /// Whether the walk, if it is one, is within its limits.
    pub fn is_within_limits(&self) -> bool
        ensures { result ≡ is_within self.now }
    {
        match self {
            Command::Replay | Command::Check | Command::Follow => true,
            Command::Walk(walk) => walk.is_within_limits(),
        }
    }
}
