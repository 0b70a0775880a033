//! The words of answers, each with what it stands for.
//! In no table does one word begin another.

use crate::answer_line::AnswerLine;

/// An event of a section that opens or closes, and no more.
#[derive(Clone, Copy)]
pub enum SectionWord {
    /// A section begins: its reader and its ordinal come next.
    Open,
    /// A section ends: its reader and its ordinal come next.
    Close,
}

/// An event in which a section reads.
#[derive(Clone, Copy)]
pub enum ReadingWord {
    /// It goes to the front of a chain: section, chain and what it found come next.
    First,
    /// It goes on from an object: section, that object and what it found come next.
    Next,
    /// It reads an object: section and object come next.
    Touch,
}

/// An event of a chain.
#[derive(Clone, Copy)]
pub enum ChainWord {
    /// A new object stands at the front: chain and object come next.
    Push,
    /// A new object stands in the place of another: chain, the one that left and the new one come next.
    Replace,
    /// An object left: chain and object come next.
    Cut,
}

/// An event of an object that left its chain.
#[derive(Clone, Copy)]
pub enum ObjectWord {
    /// It is to be reclaimed: its number comes next.
    Retire,
    /// It waits for a grace period: its number and its queue's come next.
    Queue,
    /// Its callback ran: its number comes next.
    Run,
}

/// An event of a grace period or a barrier, which have numbers.
#[derive(Clone, Copy)]
pub enum WaitWord {
    /// A grace period is asked for: the number of the ask comes next, from 1.
    Ask,
    /// A grace period has passed since that ask.
    Answer,
    /// A barrier begins: its number comes next, from 1.
    Bar,
    /// That barrier ends.
    Clear,
}

/// The word of an event.
#[derive(Clone, Copy)]
pub enum EventWord {
    /// A section opens or closes.
    Section(SectionWord),
    /// A section reads.
    Reading(ReadingWord),
    /// An object enters or leaves a chain.
    Chain(ChainWord),
    /// An object is on its way to be reclaimed.
    Object(ObjectWord),
    /// A grace period or a barrier is asked for or answered.
    Wait(WaitWord),
}

/// A line that is a word and no more, with its line feed. The table of words keeps this small name of the line, not the
/// line itself, which has room for two events.
#[derive(Clone, Copy)]
pub enum WholeWord {
    /// A step without an event.
    Quiet,
    /// A step that is to be tried again.
    Wait,
    /// A step that needs a lock that is held.
    Blocked,
    /// A worker that found its queue empty.
    Idle,
}

impl WholeWord {
    ghost use Rattle.std.specs.Prelude.{◌≡◌};
    ghost use Rattle.schedule_text.specs.AnswerGrammar.{whole_line};

    /// The line.
    pub fn line(self) -> AnswerLine
        ensures { result ≡ whole_line self }
    {
        match self {
            WholeWord::Quiet => AnswerLine::Quiet,
            WholeWord::Wait => AnswerLine::Wait,
            WholeWord::Blocked => AnswerLine::Blocked,
            WholeWord::Idle => AnswerLine::Idle,
        }
    }
}

/// How a line of answers begins.
#[derive(Clone, Copy)]
pub enum AnswerWord {
    /// With an event, whose numbers come next.
    Event(EventWord),
    /// As a whole line.
    Whole(WholeWord),
    /// A refusal: its number comes next.
    Refused,
    /// The end line: the first of its three counts comes next.
    End,
}

/// What a section found.
#[derive(Clone, Copy)]
pub enum FoundWord {
    /// An object, whose number comes next.
    Object,
    /// The end of the chain.
    Nothing,
}

/// How an event begins, after `; ` as at the front of a line.
pub const EVENT_WORDS: [(&[u8], EventWord); 15] = [
    (b"open r", EventWord::Section(SectionWord::Open)),
    (b"close r", EventWord::Section(SectionWord::Close)),
    (b"first r", EventWord::Reading(ReadingWord::First)),
    (b"next r", EventWord::Reading(ReadingWord::Next)),
    (b"touch r", EventWord::Reading(ReadingWord::Touch)),
    (b"push c", EventWord::Chain(ChainWord::Push)),
    (b"replace c", EventWord::Chain(ChainWord::Replace)),
    (b"cut c", EventWord::Chain(ChainWord::Cut)),
    (b"retire o", EventWord::Object(ObjectWord::Retire)),
    (b"queue o", EventWord::Object(ObjectWord::Queue)),
    (b"run o", EventWord::Object(ObjectWord::Run)),
    (b"ask a", EventWord::Wait(WaitWord::Ask)),
    (b"answer a", EventWord::Wait(WaitWord::Answer)),
    (b"bar b", EventWord::Wait(WaitWord::Bar)),
    (b"clear b", EventWord::Wait(WaitWord::Clear)),
];

/// How a line of answers begins.
pub const ANSWER_WORDS: [(&[u8], AnswerWord); 21] = [
    (b".\n", AnswerWord::Whole(WholeWord::Quiet)),
    (
        b"open r",
        AnswerWord::Event(EventWord::Section(SectionWord::Open)),
    ),
    (
        b"close r",
        AnswerWord::Event(EventWord::Section(SectionWord::Close)),
    ),
    (
        b"first r",
        AnswerWord::Event(EventWord::Reading(ReadingWord::First)),
    ),
    (
        b"next r",
        AnswerWord::Event(EventWord::Reading(ReadingWord::Next)),
    ),
    (
        b"touch r",
        AnswerWord::Event(EventWord::Reading(ReadingWord::Touch)),
    ),
    (
        b"push c",
        AnswerWord::Event(EventWord::Chain(ChainWord::Push)),
    ),
    (
        b"replace c",
        AnswerWord::Event(EventWord::Chain(ChainWord::Replace)),
    ),
    (
        b"cut c",
        AnswerWord::Event(EventWord::Chain(ChainWord::Cut)),
    ),
    (
        b"retire o",
        AnswerWord::Event(EventWord::Object(ObjectWord::Retire)),
    ),
    (
        b"queue o",
        AnswerWord::Event(EventWord::Object(ObjectWord::Queue)),
    ),
    (
        b"run o",
        AnswerWord::Event(EventWord::Object(ObjectWord::Run)),
    ),
    (b"ask a", AnswerWord::Event(EventWord::Wait(WaitWord::Ask))),
    (
        b"answer a",
        AnswerWord::Event(EventWord::Wait(WaitWord::Answer)),
    ),
    (b"bar b", AnswerWord::Event(EventWord::Wait(WaitWord::Bar))),
    (
        b"clear b",
        AnswerWord::Event(EventWord::Wait(WaitWord::Clear)),
    ),
    (b"wait\n", AnswerWord::Whole(WholeWord::Wait)),
    (b"blocked\n", AnswerWord::Whole(WholeWord::Blocked)),
    (b"idle\n", AnswerWord::Whole(WholeWord::Idle)),
    (b"refused E", AnswerWord::Refused),
    (b"end open=", AnswerWord::End),
];

/// What a section found.
pub const FOUND_WORDS: [(&[u8], FoundWord); 2] = [
    (b"o", FoundWord::Object),
    (b"none", FoundWord::Nothing),
];

/// What stands before the second number of an end line.
pub const WAITING: [(&[u8], ()); 1] = [(b"waiting=", ())];

/// What stands before its third number.
pub const RUN: [(&[u8], ()); 1] = [(b"run=", ())];
