//! A line of a script: who calls, what, and with which numbers.

/// Who makes a call.
#[derive(Clone, Copy, Debug, PartialEq, Eq, Drop)]
pub enum Actor {
    /// A reader.
    Reader(u32),
    /// An updater.
    Updater(u32),
    /// The worker of a queue.
    Worker(u32),
    /// A keyed list.
    List(u32),
    /// A hash table.
    Table(u32),
    /// The domain.
    Domain,
}

/// What is called. Some words stand for several of these, by their actor.
#[derive(Clone, Copy, Debug, PartialEq, Eq, Drop)]
pub enum Verb {
    // Of a reader.
    Register,
    Unregister,
    Lock,
    TryLock,
    Unlock,
    Online,
    Quiescent,
    Offline,
    First,
    Next,
    Read,
    Word,
    GetInList,
    GetInTable,
    WalkList,
    WalkTable,
    // Of an updater.
    Chain,
    Free,
    Alloc,
    Discard,
    Push,
    Replace,
    Cut,
    Retire,
    CutRetire,
    ReplaceRetire,
    Len,
    Get,
    Index,
    Note,
    SetNote,
    Hear,
    Synchronize,
    Start,
    Poll,
    Barrier,
    Mark,
    Done,
    Inform,
    // Of a worker.
    Run,
    Work,
    // Of a list or a table.
    NewList,
    NewTable,
    Drop,
    Insert,
    ReplaceKey,
    Remove,
    Value,
    Grow,
    Tidy,
    // Of the domain.
    Counts,
    Stalled,
    Close,
    Again,
}

/// A call: its line has as many of the numbers as its verb asks for, in their order, and the others are 0.
#[derive(Clone, Copy, Debug, PartialEq, Eq, Drop)]
pub struct Call {
    /// Who makes it.
    pub actor: Actor,
    /// What is called.
    pub verb: Verb,
    /// With which numbers.
    pub numbers: [u64; 4],
}

/// The header of a script: the domain's flavour and sizes, and who writes its chains.
#[derive(Clone, Copy, Debug, PartialEq, Eq, Drop)]
pub struct Header {
    /// Whether the domain is of the quiescent-state flavour.
    pub qsbr: bool,
    /// The slots of readers.
    pub slots: u32,
    /// The queues of callbacks.
    pub queues: u32,
    /// The chains.
    pub chains: u32,
    /// The records of the pool.
    pub pool: u32,
    /// Whether lists and tables write the chains, and not updaters.
    pub maps: bool,
}
