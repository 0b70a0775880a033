//! What the benchmark repeats, and how large a domain that takes.

use live_load::Buckets;
use rcu_hash::LiveConfig;
use rcu_model::Refusal;

/// How many records a domain has.
pub(crate) const RECORDS: u64 = 65_536;

/// What is repeated on chains.
#[derive(Clone, Copy, PartialEq, Eq, Drop)]
pub(crate) enum OnChains {
    /// A read-side section with nothing in it.
    Section,
    /// An inner section with nothing in it.
    Nested,
    /// A section, and then a quiescent state.
    Announcement,
    /// A section that reads the first object of a chain.
    Read,
    /// A further read in a section.
    FurtherRead,
    /// A step along a chain of 1,000 objects.
    Walk,
    /// A grace period that is waited for, with two readers that are in no section.
    Synchronize,
    /// A look whether an ask is answered.
    Poll,
    /// A record allocated and pushed.
    Push,
    /// The same, cut at once.
    Cut,
    /// A record allocated and discarded, while this many of 100 are in use.
    Alloc(u64),
    /// A record allocated and put in the place of the first one of a chain, which is retired, while nobody reclaims.
    Queue,
    /// The same beside a worker that reclaims all.
    Retire,
    /// The same with a boxed callback.
    RetireBoxed,
    /// The same, and a barrier.
    Barrier,
    /// A section that reads, or a record retired once in 100 times, beside a worker.
    Mix,
}

/// How many keys a table has, and in how many buckets.
#[derive(Clone, Copy, PartialEq, Eq, Drop)]
pub(crate) enum Entries {
    /// 1,024 keys in 1,024 buckets.
    Few,
    /// A key for each record but the directory, in a bucket for each chain but the directory's.
    Many,
}

/// What is repeated on a hash table.
#[derive(Clone, Copy, PartialEq, Eq, Drop)]
pub(crate) enum OnTable {
    /// A section that looks up a key that is there.
    Hit(Entries),
    /// A section that looks up a key that is not there.
    Miss(Entries),
    /// A key gets a value, among at most 65,535 in 4,095 buckets. Each thread has keys of its own.
    Insert,
    /// A key gets a value and is taken out again, among 1,024 in 1,024 buckets.
    Remove,
    /// An entry met, while a section goes through all of 1,024 in 1,024 buckets.
    Through,
    /// A table of 10,000 keys grows and is tidied, beside a worker that reclaims all.
    Grow,
    /// A section that looks up a key of it, while it grows all the time.
    HitWhileGrowing,
    /// The same, each section timed.
    SlowestWhileGrowing,
}

/// What is repeated, by how many threads.
#[derive(Clone, Copy, Drop)]
pub(crate) enum Kind {
    Chains(OnChains, usize),
    Table(OnTable, usize),
}

/// What each word of the command line names.
const KINDS: [(&str, Kind); 36] = [
    ("section", Kind::Chains(OnChains::Section, 1)),
    ("section-by-two", Kind::Chains(OnChains::Section, 2)),
    ("nested", Kind::Chains(OnChains::Nested, 1)),
    ("announcement", Kind::Chains(OnChains::Announcement, 1)),
    ("read", Kind::Chains(OnChains::Read, 1)),
    ("read-by-two", Kind::Chains(OnChains::Read, 2)),
    ("further-read", Kind::Chains(OnChains::FurtherRead, 1)),
    ("walk", Kind::Chains(OnChains::Walk, 1)),
    ("synchronize", Kind::Chains(OnChains::Synchronize, 1)),
    ("poll", Kind::Chains(OnChains::Poll, 1)),
    ("push", Kind::Chains(OnChains::Push, 1)),
    ("cut", Kind::Chains(OnChains::Cut, 1)),
    ("alloc-10", Kind::Chains(OnChains::Alloc(10), 1)),
    ("alloc-90", Kind::Chains(OnChains::Alloc(90), 1)),
    ("alloc-99", Kind::Chains(OnChains::Alloc(99), 1)),
    ("queue", Kind::Chains(OnChains::Queue, 1)),
    ("retire", Kind::Chains(OnChains::Retire, 1)),
    ("retire-boxed", Kind::Chains(OnChains::RetireBoxed, 1)),
    ("barrier", Kind::Chains(OnChains::Barrier, 1)),
    ("mix-by-two", Kind::Chains(OnChains::Mix, 2)),
    ("mix-by-four", Kind::Chains(OnChains::Mix, 4)),
    ("hit", Kind::Table(OnTable::Hit(Entries::Few), 1)),
    ("hit-by-two", Kind::Table(OnTable::Hit(Entries::Few), 2)),
    ("miss", Kind::Table(OnTable::Miss(Entries::Few), 1)),
    ("miss-by-two", Kind::Table(OnTable::Miss(Entries::Few), 2)),
    ("hit-large", Kind::Table(OnTable::Hit(Entries::Many), 1)),
    (
        "hit-large-by-two",
        Kind::Table(OnTable::Hit(Entries::Many), 2),
    ),
    ("miss-large", Kind::Table(OnTable::Miss(Entries::Many), 1)),
    (
        "miss-large-by-two",
        Kind::Table(OnTable::Miss(Entries::Many), 2),
    ),
    ("insert", Kind::Table(OnTable::Insert, 1)),
    ("insert-by-two", Kind::Table(OnTable::Insert, 2)),
    ("remove", Kind::Table(OnTable::Remove, 1)),
    ("through", Kind::Table(OnTable::Through, 1)),
    ("grow", Kind::Table(OnTable::Grow, 1)),
    (
        "hit-while-growing",
        Kind::Table(OnTable::HitWhileGrowing, 2),
    ),
    (
        "slowest-while-growing",
        Kind::Table(OnTable::SlowestWhileGrowing, 3),
    ),
];

/// What the word of the command line names.
pub(crate) fn kind_of(word: &str) -> Option<Kind> {
    for (name, kind) in &KINDS {
        if *name == word {
            return Some(*kind);
        }
    }
    None
}

/// What the last thread answers, or the first refusal.
pub(crate) fn last_of(parts: Vec<Result<u64, Refusal>>) -> Result<u64, Refusal> {
    let mut answer = 0;
    for part in parts {
        answer = part?;
    }
    Ok(answer)
}

impl OnChains {
    /// Whether it is repeated by a reader, on chain 0.
    pub(crate) fn is_read(self) -> bool {
        matches!(
            self,
            OnChains::Section
                | OnChains::Nested
                | OnChains::Announcement
                | OnChains::Read
                | OnChains::FurtherRead
                | OnChains::Walk
        )
    }

    /// Whether a worker reclaims all meanwhile.
    pub(crate) fn has_worker(self) -> bool {
        matches!(
            self,
            OnChains::Retire | OnChains::RetireBoxed | OnChains::Barrier | OnChains::Mix
        )
    }
}

/// A domain of this many chains.
pub(crate) fn of_chains(chains: usize) -> LiveConfig {
    LiveConfig {
        slots: 256,
        queues: 1,
        chains,
        pool: RECORDS as usize,
    }
}

impl OnTable {
    /// How many keys its table has at first.
    pub(crate) fn keys(self) -> u64 {
        match self {
            OnTable::Insert => 0,
            OnTable::Hit(Entries::Many) | OnTable::Miss(Entries::Many) => RECORDS - 1,
            OnTable::Grow | OnTable::HitWhileGrowing | OnTable::SlowestWhileGrowing => 10_000,
            _ => 1_024,
        }
    }

    /// The mask that makes a key of a drawn number. The larger table lacks one of these keys.
    pub(crate) fn mask(self) -> u64 {
        match self {
            OnTable::Hit(Entries::Many) | OnTable::Miss(Entries::Many) => RECORDS - 1,
            OnTable::HitWhileGrowing | OnTable::SlowestWhileGrowing => 8_191,
            _ => 1_023,
        }
    }

    /// The buckets that its table has at first.
    pub(crate) fn buckets(self) -> Buckets {
        let number = match self {
            OnTable::Insert | OnTable::Hit(Entries::Many) | OnTable::Miss(Entries::Many) => 4_095,
            _ => 1_024,
        };
        Buckets { first: 1, number }
    }

    /// How many chains its domain has: one for the directory, one for each bucket, and for each bucket of twice as many
    /// where it grows.
    pub(crate) fn chains(self) -> usize {
        match self {
            OnTable::Insert | OnTable::Hit(Entries::Many) | OnTable::Miss(Entries::Many) => 4_096,
            OnTable::Grow | OnTable::HitWhileGrowing | OnTable::SlowestWhileGrowing => 3_073,
            _ => 1_025,
        }
    }

    /// Whether a worker reclaims all meanwhile.
    pub(crate) fn has_worker(self) -> bool {
        matches!(
            self,
            OnTable::Grow | OnTable::HitWhileGrowing | OnTable::SlowestWhileGrowing
        )
    }
}
