//! A section reads chains, objects and payloads. A mark is an event of the log, or such a reading.

use crate::event::LiveEvent;
use rcu_model::{ObjectId, SectionId};

/// What a section reads. No value of it is made.
pub enum Reading {
    /// A chain, and its first object.
    First(u64, Option<ObjectId>),
    /// An object, and what follows it.
    Next(ObjectId, Option<ObjectId>),
    /// An object whose payload is read.
    Touch(ObjectId),
}

/// A mark of a log with readings in it. No value of it is made.
pub enum Mark {
    /// An event of the log.
    Stored(LiveEvent),
    /// A section, and what it reads.
    Read(SectionId, Reading),
}
