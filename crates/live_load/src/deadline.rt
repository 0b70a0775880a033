//! When a run is over.

use std::time::{Clock, Duration, Instant};

/// When a run is over: at a time, or only once all rounds are done.
#[derive(Clone, Copy, Drop)]
pub enum Deadline {
    /// Once all rounds are done.
    None,
    /// At this time.
    At(Instant),
    /// At once: the clock cannot be read.
    Past,
}

impl Deadline {
    /// The deadline that many seconds from now, or none where no number is given.
    pub(crate) fn after<R: Clock>(rt: &R, seconds: Option<u32>) -> Deadline {
        let Some(seconds) = seconds else {
            return Deadline::None;
        };
        let Ok(now) = Instant::now(rt) else {
            return Deadline::Past;
        };
        match now.checked_add(Duration::from_secs(u64::from(seconds))) {
            Some(end) => Deadline::At(end),
            None => Deadline::Past,
        }
    }

    /// Whether the time is over.
    pub(crate) fn is_over<R: Clock>(&self, rt: &R) -> bool {
        match self {
            Deadline::None => false,
            Deadline::At(end) => Instant::now(rt).map_or(true, |now| now >= *end),
            Deadline::Past => true,
        }
    }
}
