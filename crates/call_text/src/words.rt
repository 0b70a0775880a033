//! The words of a script, each with what it stands for.
//! In no table does one word begin another.

use crate::call::Verb;
use crate::words::Argument::{Absent, LastNumber, LastValue, Number, Value};

/// Who calls.
#[derive(Clone, Copy)]
pub enum ActorWord {
    /// `r`, before the number of a reader.
    Reader,
    /// `u`, before the number of an updater.
    Updater,
    /// `w`, before the number of a worker.
    Worker,
    /// `l`, before the number of a list.
    List,
    /// `t`, before the number of a table.
    Table,
    /// `d`, the domain.
    Domain,
}

/// What a line has in one of the four places for numbers.
#[derive(Clone, Copy)]
pub enum Argument {
    /// Nothing: the number is 0.
    Absent,
    /// A number of at most nine digits, and a space.
    Number,
    /// The same, and the line feed.
    LastNumber,
    /// A value of at most nineteen digits, and a space.
    Value,
    /// The same, and the line feed.
    LastValue,
}

/// What a line has in its four places for numbers.
#[derive(Clone, Copy)]
pub struct Arguments(pub Argument, pub Argument, pub Argument, pub Argument);

/// What a word stands for: the verb, and what comes after the word.
#[derive(Clone, Copy)]
pub struct VerbWord(pub Verb, pub Arguments);

const NOTHING: Arguments = Arguments(Absent, Absent, Absent, Absent);

const NUMBER: Arguments = Arguments(LastNumber, Absent, Absent, Absent);

const TWO_NUMBERS: Arguments = Arguments(Number, LastNumber, Absent, Absent);

const THREE_NUMBERS: Arguments = Arguments(Number, Number, LastNumber, Absent);

const NUMBER_AND_VALUE: Arguments = Arguments(Number, LastValue, Absent, Absent);

const TWO_NUMBERS_AND_VALUE: Arguments = Arguments(Number, Number, LastValue, Absent);

const VALUE: Arguments = Arguments(LastValue, Absent, Absent, Absent);

const TWO_VALUES: Arguments = Arguments(Value, LastValue, Absent, Absent);

const THREE_VALUES: Arguments = Arguments(Value, Value, LastValue, Absent);

const FOUR_VALUES: Arguments = Arguments(Value, Value, Value, LastValue);

/// Who calls, before the actor's number.
pub const ACTORS: [(&[u8], ActorWord); 6] = [
    (b"r", ActorWord::Reader),
    (b"u", ActorWord::Updater),
    (b"w", ActorWord::Worker),
    (b"l", ActorWord::List),
    (b"t", ActorWord::Table),
    (b"d ", ActorWord::Domain),
];

/// What a reader calls.
pub const READER_WORDS: [(&[u8], VerbWord); 16] = [
    (b"register\n", VerbWord(Verb::Register, NOTHING)),
    (b"unregister\n", VerbWord(Verb::Unregister, NOTHING)),
    (b"lock\n", VerbWord(Verb::Lock, NOTHING)),
    (b"try_lock\n", VerbWord(Verb::TryLock, NOTHING)),
    (b"unlock\n", VerbWord(Verb::Unlock, NOTHING)),
    (b"online\n", VerbWord(Verb::Online, NOTHING)),
    (b"quiescent\n", VerbWord(Verb::Quiescent, NOTHING)),
    (b"offline\n", VerbWord(Verb::Offline, NOTHING)),
    (b"first c", VerbWord(Verb::First, NUMBER)),
    (b"next\n", VerbWord(Verb::Next, NOTHING)),
    (b"read\n", VerbWord(Verb::Read, NOTHING)),
    (b"word ", VerbWord(Verb::Word, NUMBER)),
    (b"get l", VerbWord(Verb::GetInList, NUMBER_AND_VALUE)),
    (b"get t", VerbWord(Verb::GetInTable, NUMBER_AND_VALUE)),
    (b"walk l", VerbWord(Verb::WalkList, NUMBER)),
    (b"walk t", VerbWord(Verb::WalkTable, NUMBER)),
];

/// What an updater calls.
pub const UPDATER_WORDS: [(&[u8], VerbWord); 23] = [
    (b"chain c", VerbWord(Verb::Chain, NUMBER)),
    (b"free c", VerbWord(Verb::Free, NUMBER)),
    (b"alloc ", VerbWord(Verb::Alloc, FOUR_VALUES)),
    (b"discard\n", VerbWord(Verb::Discard, NOTHING)),
    (b"push c", VerbWord(Verb::Push, NUMBER)),
    (b"replace c", VerbWord(Verb::Replace, TWO_NUMBERS)),
    (b"cut c", VerbWord(Verb::Cut, TWO_NUMBERS)),
    (b"retire ", VerbWord(Verb::Retire, VALUE)),
    (
        b"cut_retire c",
        VerbWord(Verb::CutRetire, TWO_NUMBERS_AND_VALUE),
    ),
    (
        b"replace_retire c",
        VerbWord(Verb::ReplaceRetire, TWO_NUMBERS_AND_VALUE),
    ),
    (b"len c", VerbWord(Verb::Len, NUMBER)),
    (b"get c", VerbWord(Verb::Get, TWO_NUMBERS)),
    (b"index c", VerbWord(Verb::Index, NUMBER_AND_VALUE)),
    (b"note c", VerbWord(Verb::Note, NUMBER)),
    (b"set_note c", VerbWord(Verb::SetNote, NUMBER_AND_VALUE)),
    (b"hear c", VerbWord(Verb::Hear, NUMBER)),
    (b"synchronize\n", VerbWord(Verb::Synchronize, NOTHING)),
    (b"start\n", VerbWord(Verb::Start, NOTHING)),
    (b"poll\n", VerbWord(Verb::Poll, NOTHING)),
    (b"barrier\n", VerbWord(Verb::Barrier, NOTHING)),
    (b"mark\n", VerbWord(Verb::Mark, NOTHING)),
    (b"done\n", VerbWord(Verb::Done, NOTHING)),
    (b"inform u", VerbWord(Verb::Inform, NUMBER)),
];

/// What a worker calls.
pub const WORKER_WORDS: [(&[u8], VerbWord); 2] = [
    (b"run\n", VerbWord(Verb::Run, NOTHING)),
    (b"work\n", VerbWord(Verb::Work, NOTHING)),
];

/// What a list is called with.
pub const LIST_WORDS: [(&[u8], VerbWord); 6] = [
    (b"new c", VerbWord(Verb::NewList, NUMBER)),
    (b"drop\n", VerbWord(Verb::Drop, NOTHING)),
    (b"insert ", VerbWord(Verb::Insert, TWO_VALUES)),
    (b"replace ", VerbWord(Verb::ReplaceKey, THREE_VALUES)),
    (b"remove ", VerbWord(Verb::Remove, TWO_VALUES)),
    (b"value ", VerbWord(Verb::Value, VALUE)),
];

/// What a table is called with.
pub const TABLE_WORDS: [(&[u8], VerbWord); 7] = [
    (b"new c", VerbWord(Verb::NewTable, THREE_NUMBERS)),
    (b"drop\n", VerbWord(Verb::Drop, NOTHING)),
    (b"insert ", VerbWord(Verb::Insert, TWO_VALUES)),
    (b"replace ", VerbWord(Verb::ReplaceKey, THREE_VALUES)),
    (b"remove ", VerbWord(Verb::Remove, TWO_VALUES)),
    (b"grow ", VerbWord(Verb::Grow, TWO_NUMBERS)),
    (b"tidy ", VerbWord(Verb::Tidy, NUMBER_AND_VALUE)),
];

/// What the domain is called with.
pub const DOMAIN_WORDS: [(&[u8], VerbWord); 4] = [
    (b"counts\n", VerbWord(Verb::Counts, NOTHING)),
    (b"stalled\n", VerbWord(Verb::Stalled, NOTHING)),
    (b"close\n", VerbWord(Verb::Close, NOTHING)),
    (b"again\n", VerbWord(Verb::Again, NOTHING)),
];

/// How a header begins, and whether its flavour is the quiescent-state one.
pub const FLAVOURS: [(&[u8], bool); 2] = [(b"calls 1 memb ", false), (b"calls 1 qsbr ", true)];

/// How a header ends where lists and tables write the chains.
pub const MAPS: [(&[u8], bool); 1] = [(b"maps\n", true)];
