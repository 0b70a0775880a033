//! The verbs by which actors began the operations that they are in.

use std::fmt;
use world::{Actor, Line, ReaderVerb, UpdaterVerb, WorkerVerb};

/// The actors of the worlds that are stepped.
pub const ACTORS: [Actor; 5] = [
    Actor::Reader(0),
    Actor::Reader(1),
    Actor::Updater(0),
    Actor::Updater(1),
    Actor::Worker(0),
];

/// An operation of an actor: the line that began it.
#[derive(Clone, Copy, Drop)]
pub struct Operation(Line);

/// Writes who makes it, and the word of its verb in a schedule.
impl fmt::Display for Operation {
    fn fmt<W: fmt::Write>(&self, f: &mut fmt::Formatter<W>) -> fmt::Result {
        match self.0 {
            Line::Reader(reader, verb) => write!(f, "r{reader} {}", reader_word(verb)),
            Line::Updater(updater, verb) => write!(f, "u{updater} {}", updater_word(verb)),
            Line::Worker(worker, verb) => write!(f, "w{worker} {}", worker_word(verb)),
        }
    }
}

/// The word of a reader's verb.
fn reader_word(verb: ReaderVerb) -> &'static str {
    match verb {
        ReaderVerb::Lock => "lock",
        ReaderVerb::Unlock => "unlock",
        ReaderVerb::Online => "online",
        ReaderVerb::Quiescent => "quiescent",
        ReaderVerb::Offline => "offline",
        ReaderVerb::First(_) => "first",
        ReaderVerb::Next => "next",
        ReaderVerb::Touch => "touch",
        ReaderVerb::GoOn => ".",
    }
}

/// The word of an updater's verb.
fn updater_word(verb: UpdaterVerb) -> &'static str {
    match verb {
        UpdaterVerb::Push(_) => "push",
        UpdaterVerb::Replace(_) => "replace",
        UpdaterVerb::Cut(_) => "cut",
        UpdaterVerb::Retire(_) => "retire",
        UpdaterVerb::Sync => "sync",
        UpdaterVerb::Start => "start",
        UpdaterVerb::Poll => "poll",
        UpdaterVerb::Barrier => "barrier",
        UpdaterVerb::GoOn => ".",
    }
}

/// The word of a worker's verb.
fn worker_word(verb: WorkerVerb) -> &'static str {
    match verb {
        WorkerVerb::Take => "take",
        WorkerVerb::GoOn => ".",
    }
}

/// Who makes a line.
fn actor_of(line: Line) -> Actor {
    match line {
        Line::Reader(reader, _) => Actor::Reader(reader),
        Line::Updater(updater, _) => Actor::Updater(updater),
        Line::Worker(worker, _) => Actor::Worker(worker),
    }
}

/// Whether a line goes on with an operation.
fn goes_on(line: Line) -> bool {
    matches!(
        line,
        Line::Reader(_, ReaderVerb::GoOn)
            | Line::Updater(_, UpdaterVerb::GoOn)
            | Line::Worker(_, WorkerVerb::GoOn)
    )
}

/// The last line with a verb of each actor, if it has made one.
#[derive(Clone, Copy, Drop)]
pub struct Begun([Option<Line>; 5]);

impl Begun {
    /// No actor has made a line.
    pub fn new() -> Begun {
        Begun([None; 5])
    }

    /// The operation that the next line belongs to: its own, or where it goes on the one that its actor began last.
    pub fn operation(&mut self, line: Line) -> Operation {
        let actor = actor_of(line);
        let at = ACTORS.iter().position(|it| *it == actor).unwrap_or(5);
        let Some(begun) = self.0.get_mut(at) else {
            return Operation(line);
        };
        if !goes_on(line) {
            *begun = Some(line);
        }
        Operation(begun.unwrap_or(line))
    }
}
