//! How far a run is, on standard error.

use live_load::Watch;

/// Tells how far a run is, a line at a time, where somebody may be looking: a write error is passed over.
#[derive(Drop)]
pub(crate) struct Progress<'a> {
    pub(crate) rt: &'a HostRuntime,
    /// Whether standard error is a terminal.
    pub(crate) is_shown: bool,
}

impl Watch for Progress<'_> {
    fn hear(&self, rounds: u32) {
        if self.is_shown {
            let _ = eprintln!(self.rt; "run: {rounds} rounds");
        }
    }
}
