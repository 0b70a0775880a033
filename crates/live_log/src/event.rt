//! What stores write into the log.

use crate::callback_id::CallbackId;
use rcu_model::ObjectId;
use std::collections::LinkedList;

/// What one store writes of an object: an event of the abstract machine, and what is noted with it. No value of it is
/// made.
pub enum ObjectEvent {
    /// A new object becomes the first of a chain: the chain, the object, its record, and its payload.
    Push(u64, ObjectId, u64, LinkedList<u64>),
    /// A new object takes the place of a linked one: the chain, the object that leaves, the one that comes, its record,
    /// and its payload.
    Replace(u64, ObjectId, ObjectId, u64, LinkedList<u64>),
    /// A linked object leaves its chain: the chain, and the object.
    Cut(u64, ObjectId),
    /// A cut object is handed over to be reclaimed.
    Retire(ObjectId),
    /// A retired object's callback is queued: the object, the queue, and which callback it is.
    Queue(ObjectId, u64, CallbackId),
    /// The callback of a queued object begins to run.
    Run(ObjectId),
}

/// What one store writes into the log: an event of the abstract machine, or a note that the machine does not see. No
/// value of it is made.
pub enum LiveEvent {
    /// A section begins: the slot, the section's ordinal, from 1, and the phase or number that its reader copied.
    Open(u64, u64, u64),
    /// A section ends: the slot, and the section's ordinal.
    Close(u64, u64),
    /// The sequence number becomes odd: a grace period begins.
    SeqOdd,
    /// It becomes even: the grace period is over.
    SeqEven,
    /// This is the present phase from now on, or in the quiescent-state flavour the present number.
    Present(u64),
    /// A chain has this note from now on: the chain, and the note.
    ChainNote(u64, u64),
    /// A queue is closed.
    CloseQueue(u64),
    /// A store of a head, of a link, of a record's header or of a queued count.
    Object(ObjectEvent),
}
