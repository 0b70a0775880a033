//! The words of a schedule, each with what it stands for.
//! In no table does one word begin another. What comes most often stands first.

use world_state::{Flavour, Layout, ReaderVerb, UpdaterVerb, WorkerVerb};

/// Who acts.
#[derive(Clone, Copy)]
pub enum ActorWord {
    /// `r`, before the number of a reader.
    Reader,
    /// `u`, before the number of an updater.
    Updater,
    /// `w`, before the number of a worker.
    Worker,
}

/// What a reader's word stands for.
#[derive(Clone, Copy)]
pub enum ReaderWord {
    /// A verb with its line feed.
    Whole(ReaderVerb),
    /// `first`: the chain's number comes next.
    FirstOf,
}

/// What an updater's word stands for.
#[derive(Clone, Copy)]
pub enum UpdaterWord {
    /// A verb with its line feed.
    Whole(UpdaterVerb),
    /// `push`: the chain's number comes next.
    PushTo,
    /// `replace`: the number of the object that leaves comes next.
    ReplaceOf,
    /// `cut`: the number of the object that leaves comes next.
    CutOf,
    /// `retire`: the number of the object comes next.
    RetireOf,
}

/// How a header begins, by the layout of the reader words.
pub const LAYOUTS: [(&[u8], Layout); 2] = [
    (b"schedule 1 ", Layout::Narrow),
    (b"schedule 2 ", Layout::Wide),
];

/// The flavour, in a header.
pub const FLAVOURS: [(&[u8], Flavour); 2] = [(b"memb ", Flavour::Memb), (b"qsbr ", Flavour::Qsbr)];

/// Who acts, before the actor's number.
pub const ACTORS: [(&[u8], ActorWord); 3] = [
    (b"r", ActorWord::Reader),
    (b"u", ActorWord::Updater),
    (b"w", ActorWord::Worker),
];

/// What a reader does.
pub const READER_WORDS: [(&[u8], ReaderWord); 9] = [
    (b".\n", ReaderWord::Whole(ReaderVerb::GoOn)),
    (b"lock\n", ReaderWord::Whole(ReaderVerb::Lock)),
    (b"unlock\n", ReaderWord::Whole(ReaderVerb::Unlock)),
    (b"online\n", ReaderWord::Whole(ReaderVerb::Online)),
    (b"quiescent\n", ReaderWord::Whole(ReaderVerb::Quiescent)),
    (b"offline\n", ReaderWord::Whole(ReaderVerb::Offline)),
    (b"first c", ReaderWord::FirstOf),
    (b"next\n", ReaderWord::Whole(ReaderVerb::Next)),
    (b"touch\n", ReaderWord::Whole(ReaderVerb::Touch)),
];

/// What an updater does.
pub const UPDATER_WORDS: [(&[u8], UpdaterWord); 9] = [
    (b".\n", UpdaterWord::Whole(UpdaterVerb::GoOn)),
    (b"push c", UpdaterWord::PushTo),
    (b"replace o", UpdaterWord::ReplaceOf),
    (b"cut o", UpdaterWord::CutOf),
    (b"retire o", UpdaterWord::RetireOf),
    (b"sync\n", UpdaterWord::Whole(UpdaterVerb::Sync)),
    (b"start\n", UpdaterWord::Whole(UpdaterVerb::Start)),
    (b"poll\n", UpdaterWord::Whole(UpdaterVerb::Poll)),
    (b"barrier\n", UpdaterWord::Whole(UpdaterVerb::Barrier)),
];

/// What a worker does.
pub const WORKER_WORDS: [(&[u8], WorkerVerb); 2] = [
    (b".\n", WorkerVerb::GoOn),
    (b"take\n", WorkerVerb::Take),
];
