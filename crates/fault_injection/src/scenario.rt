//! The scenarios by name.

use crate::ledger::{Finding, Ledger};
use crate::logs::{check_logs, read_logs, read_schedules};
use crate::queues::push_items;
use crate::registries::claim_slots;
use crate::replays::{Way, replay_worked};
use crate::worlds::{drain_worked, make_worlds, step_worked};
use std::alloc::Global;
use world::Flavour;

/// Calls that are made one after the other.
#[derive(Clone, Copy, PartialEq, Eq, Drop)]
pub enum Scenario {
    /// Worlds are made.
    New,
    /// A worked schedule is stepped after other events, in such numbers that each of its events meets a full log once.
    Step(Flavour),
    /// Many objects are retired and drained.
    Drain(Flavour),
    /// Items are pushed into a queue, with and without a reserved place, and after it was closed.
    Queue,
    /// A registry is made, and its slots are claimed.
    Registry,
    /// The logs of the worked schedules are judged, and broken ones.
    CheckLog,
    /// The texts of the worked schedules are read.
    ReadSchedule,
    /// The answers of the worked schedules are read.
    ReadAnswers,
    /// A worked schedule is fed in pieces.
    Feed(Flavour),
    /// A worked schedule is replayed from a reader into a writer.
    Replay(Flavour),
}

/// All scenarios, in the order in which they run.
pub const SCENARIOS: [Scenario; 14] = [
    Scenario::New,
    Scenario::Step(Flavour::Memb),
    Scenario::Step(Flavour::Qsbr),
    Scenario::Drain(Flavour::Memb),
    Scenario::Drain(Flavour::Qsbr),
    Scenario::Queue,
    Scenario::Registry,
    Scenario::CheckLog,
    Scenario::ReadSchedule,
    Scenario::ReadAnswers,
    Scenario::Feed(Flavour::Memb),
    Scenario::Feed(Flavour::Qsbr),
    Scenario::Replay(Flavour::Memb),
    Scenario::Replay(Flavour::Qsbr),
];

impl Scenario {
    /// The word that names it on the command line.
    pub fn name(self) -> &'static str {
        match self {
            Scenario::New => "new",
            Scenario::Step(Flavour::Memb) => "step-memb",
            Scenario::Step(Flavour::Qsbr) => "step-qsbr",
            Scenario::Drain(Flavour::Memb) => "drain-memb",
            Scenario::Drain(Flavour::Qsbr) => "drain-qsbr",
            Scenario::Queue => "queue",
            Scenario::Registry => "registry",
            Scenario::CheckLog => "check-log",
            Scenario::ReadSchedule => "read-schedule",
            Scenario::ReadAnswers => "read-answers",
            Scenario::Feed(Flavour::Memb) => "feed-memb",
            Scenario::Feed(Flavour::Qsbr) => "feed-qsbr",
            Scenario::Replay(Flavour::Memb) => "replay-memb",
            Scenario::Replay(Flavour::Qsbr) => "replay-qsbr",
        }
    }

    /// Makes the calls, and answers how many answers were found to be as they have to be.
    pub fn run(self, alloc: Global, ledger: &mut Ledger) -> Result<u64, Finding> {
        match self {
            Scenario::New => make_worlds(alloc, ledger),
            Scenario::Step(flavour) => step_worked(alloc, ledger, flavour),
            Scenario::Drain(flavour) => drain_worked(alloc, ledger, flavour),
            Scenario::Queue => push_items(alloc, ledger),
            Scenario::Registry => claim_slots(alloc, ledger),
            Scenario::CheckLog => check_logs(alloc, ledger),
            Scenario::ReadSchedule => read_schedules(alloc, ledger),
            Scenario::ReadAnswers => read_logs(alloc, ledger),
            Scenario::Feed(flavour) => replay_worked(alloc, ledger, flavour, Way::Pieces),
            Scenario::Replay(flavour) => replay_worked(alloc, ledger, flavour, Way::Stream),
        }
    }
}
