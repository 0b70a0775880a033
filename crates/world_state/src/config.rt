//! How large a world is, and of which flavour.

ghost use Rattle.std.specs.Prelude.{◌≡◌};

use reader_word::Layout;

/// Which of liburcu's flavours the readers of a world go by.
#[derive(Clone, Copy, Debug, PartialEq, Eq, Drop)]
pub enum Flavour {
    /// General purpose: readers lock and unlock.
    Memb,
    /// Quiescent state: readers announce quiescent states.
    Qsbr,
}

/// What a schedule's header says.
#[derive(Clone, Copy, Debug, PartialEq, Eq, Drop)]
pub struct Config {
    /// How reader words are laid out, in the general-purpose flavour.
    pub layout: Layout,
    /// What readers go by.
    pub flavour: Flavour,
    /// 1 to 64.
    pub readers: u32,
    /// 1 to 16. Updater u retires into queue `u mod workers`.
    pub updaters: u32,
    /// 1 to 8, each with a queue of its own.
    pub workers: u32,
    /// 1 to 64. Chain c has one writer, updater `c mod updaters`.
    pub chains: u32,
}

impl Config {
    ghost use Rattle.world_state.specs.Limits.{is_within_limits};

    /// Whether there are 1 to 64 readers, 1 to 16 updaters, 1 to 8 workers and 1 to 64 chains.
    pub fn is_within_limits(&self) -> bool
        ensures { result ≡ is_within_limits self.now }
    {
        (1..=64).contains(&self.readers)
            && (1..=16).contains(&self.updaters)
            && (1..=8).contains(&self.workers)
            && (1..=64).contains(&self.chains)
    }
}
