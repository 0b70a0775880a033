//! What a seat knows.

use crate::rights::{ChainRight, GraceRight, QueueRight, RecordRight, SlotRight, WorkRight};
use live_log::LiveEvent;
use std::collections::LinkedList;

/// How many slots, chains, queues and records a table has.
#[derive(Drop)]
pub struct Sizes {
    /// The slots of readers.
    pub slots: u64,
    /// The chains.
    pub chains: u64,
    /// The queues.
    pub queues: u64,
    /// The records.
    pub pool: u64,
}

/// What a step did with a word of which the log says nothing. No value of it is made at run time.
pub enum Look {
    /// At this place it found this number.
    Loaded(u64, u64),
    /// At this place it left this number.
    Stored(u64, u64),
}

/// What a seat knows: what it has seen and heard of the log, and its rights. No value of it is made at run time.
pub struct View {
    /// What the table was made with.
    pub sizes: Sizes,
    /// The log at the seat's last step.
    pub seen: LinkedList<LiveEvent>,
    /// What another seat told it, which its next step makes a part of what it has seen.
    pub heard: LinkedList<LiveEvent>,
    /// Its right to a reader's word.
    pub slot: SlotRight,
    /// Its right to the words of grace periods.
    pub grace: GraceRight,
    /// Its rights to chains: its own one, and those that it was lent.
    pub chains: LinkedList<ChainRight>,
    /// Its right to an object.
    pub object: RecordRight,
    /// Its right to a queue.
    pub queue: QueueRight,
    /// Its right to a queue's work.
    pub work: WorkRight,
    /// The words that it loaded and stored, and of which the log says nothing, and those of seats that it learned
    /// from, the last one first. An exchange loads what it finds, and stores what it leaves where it changes the word.
    pub looks: LinkedList<Look>,
    /// The logs at its loads of the sequence number, and at those of seats that it learned from, the last one first.
    pub loads: LinkedList<LinkedList<LiveEvent>>,
    /// The push, the replacement, the cut or the note that it wrote last, or those that it learned of, the last one
    /// first.
    pub changes: LinkedList<LiveEvent>,
}
