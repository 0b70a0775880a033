//! The rights that seats have: of each thing one seat at most may store its words. No value of them is made.

use live_log::LiveEvent;
use rcu_model::ObjectId;
use std::collections::LinkedList;

/// The right to store the word of a slot's reader.
pub enum SlotRight {
    /// None.
    Nothing,
    /// The slot, its word, and how many sections it has had. Its bit is set: while it is 0, nobody has the right.
    Owns(u64, u64, u64),
}

/// The right to store the sequence number, and the phase or number.
pub enum GraceRight {
    /// None.
    Nothing,
    /// No grace period is going on: the sequence number, and the phase or number.
    Rests(u64, u64),
    /// One is going on: the same, the log before the sequence number became odd, and what was loaded since then, each
    /// word with its place, the last one first.
    Works(u64, u64, LinkedList<LiveEvent>, LinkedList<(u64, u64)>),
}

/// The right to store the words of one chain.
pub struct ChainRight {
    /// The number of the chain.
    pub chain: u64,
    /// The word of its head.
    pub head: u64,
    /// The objects that it links, the first one first.
    pub objects: LinkedList<ObjectId>,
    /// Its note.
    pub note: u64,
}

/// The right to an object and its record.
pub enum RecordRight {
    /// None.
    Nothing,
    /// The record, its object, which no chain has linked yet, its link and its payload.
    Fresh(u64, ObjectId, u64, LinkedList<u64>),
    /// The record, and its object, which is cut and not retired.
    Unlinked(u64, ObjectId),
    /// The record, and its object, which is retired and not queued.
    Retired(u64, ObjectId),
    /// The record, and its object, which is queued and not run.
    Queued(u64, ObjectId),
}

/// The right to store the count and the closed word of a queue.
pub enum QueueRight {
    /// None.
    Nothing,
    /// All queues from this one on, none of which was ever in use.
    Spare(u64),
    /// The queue, how many objects were queued, and its closed word.
    Owns(u64, u64, u64),
}

/// The right of a queue's worker.
pub enum WorkRight {
    /// None.
    Nothing,
    /// The queue, and its finished count.
    Works(u64, u64),
}
