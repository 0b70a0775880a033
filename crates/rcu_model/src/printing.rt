//! The text of an event.

ghost use Rattle.std.specs.Prelude.{Some};
ghost use Rattle.rcu_model.specs.EventText.{section_text, object_text, found_text, text_of};

use crate::event::{Event, ObjectId, SectionId};
use std::fmt;

/// Writes the reader and the ordinal.
impl fmt::Display for SectionId {
    ghost output = { λ section. Some (section_text section) };

    fn fmt<W: fmt::Write>(&self, f: &mut fmt::Formatter<W>) -> fmt::Result {
        write!(f, "r{}.{}", self.reader, self.ordinal)
    }
}

/// Writes the number.
impl fmt::Display for ObjectId {
    ghost output = { λ object. Some (object_text object) };

    fn fmt<W: fmt::Write>(&self, f: &mut fmt::Formatter<W>) -> fmt::Result {
        write!(f, "o{}", self.0)
    }
}

/// The object that a section found, if it found one.
#[derive(Clone, Copy, Drop)]
struct Found(Option<ObjectId>);

impl fmt::Display for Found {
    ghost output = { λ found. Some (found_text found.0) };

    fn fmt<W: fmt::Write>(&self, f: &mut fmt::Formatter<W>) -> fmt::Result {
        match self.0 {
            Some(object) => write!(f, "{object}"),
            None => write!(f, "none"),
        }
    }
}

/// Writes the event's one text, without a line feed.
impl fmt::Display for Event {
    ghost output = { λ event. Some (text_of event) };

    // Sections are printed by their numbers: one by its own `Display` takes a call more, for each line of an answer.
    fn fmt<W: fmt::Write>(&self, f: &mut fmt::Formatter<W>) -> fmt::Result {
        match *self {
            Event::Open(section) => write!(f, "open r{}.{}", section.reader, section.ordinal),
            Event::Close(section) => write!(f, "close r{}.{}", section.reader, section.ordinal),
            Event::First {
                section: SectionId { reader, ordinal },
                chain,
                found,
            } => write!(f, "first r{reader}.{ordinal} c{chain} {}", Found(found)),
            Event::Next {
                section: SectionId { reader, ordinal },
                from,
                found,
            } => write!(f, "next r{reader}.{ordinal} o{} {}", from.0, Found(found)),
            Event::Touch {
                section: SectionId { reader, ordinal },
                object,
            } => write!(f, "touch r{reader}.{ordinal} o{}", object.0),
            Event::Push { chain, object } => write!(f, "push c{chain} o{}", object.0),
            Event::Replace { chain, old, new } => {
                write!(f, "replace c{chain} o{} o{}", old.0, new.0)
            }
            Event::Cut { chain, object } => write!(f, "cut c{chain} o{}", object.0),
            Event::Retire(object) => write!(f, "retire o{}", object.0),
            Event::Queue { object, queue } => write!(f, "queue o{} q{queue}", object.0),
            Event::Run(object) => write!(f, "run o{}", object.0),
            Event::Ask(ask) => write!(f, "ask a{ask}"),
            Event::Answer(ask) => write!(f, "answer a{ask}"),
            Event::Bar(barrier) => write!(f, "bar b{barrier}"),
            Event::Clear(barrier) => write!(f, "clear b{barrier}"),
        }
    }
}
