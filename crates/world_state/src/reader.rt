//! What the world keeps of a reader, and the reader's rows of the step table.

ghost use Rattle.std.specs.Prelude.{◌≡◌, ◌+◌, ◌<◌, ◌^◌};

use crate::line::Answer;
use rcu_model::{Event, ObjectId, Refusal, SectionId};
use reader_word::{Layout, count, entered, is_open, left, qs_announced, qs_is_online};

/// What the world keeps of a reader.
#[derive(Clone, Copy, Drop)]
pub struct ReaderState {
    /// Its word, which scans load.
    pub word: u64,
    /// How many sections it has opened.
    pub ordinal: u64,
    /// The phase or number that it loaded and has not stored yet.
    pub copy: Option<u64>,
    /// The object that it last got in its open section.
    pub cursor: Option<ObjectId>,
}

/// What a step makes of a reader, and what it answers.
#[derive(Clone, Copy, Drop)]
pub struct ReaderStep {
    /// The reader after it.
    pub state: ReaderState,
    /// The answer to the reader's line.
    pub answer: Answer,
}

impl ReaderState {
    ghost use Rattle.world_state.specs.Readers.{is_open_in, section_of, quietly, telling, new_reader, with_word, opened, lock_row, enter_row, unlock_row, online_row, go_online_row, quiescent_row, announce_row, offline_row, found_row, touch_row};
    ghost use Rattle.rcu_model.specs.declared.event.Event.TheVariants.{Open, Close, First, Next};

    /// A reader that has done nothing yet.
    pub fn new() -> ReaderState
        ensures { result ≡ new_reader }
    {
        ReaderState {
            word: 0,
            ordinal: 0,
            copy: None,
            cursor: None,
        }
    }

    /// Whether a section is open: its count is not 0, or in the quiescent-state flavour its word is not.
    pub fn is_in_section(self, qsbr: bool, layout: Layout) -> bool
        ensures { result ≡ is_open_in qsbr layout self.word }
    {
        if qsbr {
            qs_is_online(self.word)
        } else {
            is_open(layout, self.word)
        }
    }

    /// `lock`, first step: an outermost one loads the phase, an inner one counts.
    pub fn lock(self, layout: Layout, phase: u64) -> Result<ReaderStep, Refusal>
        ensures { result ≡ lock_row layout phase self }
    {
        if count(layout, self.word) == 0 {
            return Ok(self.copying(phase));
        }
        let word = entered(layout, self.word, false)?;
        Ok(self.storing(word))
    }

    /// `lock`, second step: stores the word that opens a section.
    pub fn enter(self, reader: u32, layout: Layout, phase: u64) -> Result<ReaderStep, Refusal>
        requires { self.ordinal + 1 < 2 ^ 64 }
        ensures { result ≡ enter_row layout phase reader self }
    {
        let word = entered(layout, self.word, phase == 1)?;
        Ok(self.opening(reader, word))
    }

    /// `unlock`: the outermost one closes the section.
    pub fn unlock(self, reader: u32, layout: Layout) -> Result<ReaderStep, Refusal>
        ensures { result ≡ unlock_row layout reader self }
    {
        let word = left(layout, self.word)?;
        if count(layout, word) == 0 {
            return Ok(self.closing(reader, word));
        }
        Ok(self.storing(word))
    }

    /// `online`, first step: loads the number.
    pub fn online(self, number: u64) -> Result<ReaderStep, Refusal>
        ensures { result ≡ online_row number self }
    {
        if qs_is_online(self.word) {
            return Err(Refusal::Busy);
        }
        Ok(self.copying(number))
    }

    /// `online`, second step: stores the word that opens a section.
    pub fn go_online(self, reader: u32, number: u64) -> ReaderStep
        requires number { number < 2 ^ 63 }
        requires ordinal { self.ordinal + 1 < 2 ^ 64 }
        ensures { result ≡ go_online_row number reader self }
    {
        self.opening(reader, qs_announced(number))
    }

    /// `quiescent`, first step: loads the number.
    pub fn quiescent(self, loaded: u64) -> Result<ReaderStep, Refusal>
        ensures { result ≡ quiescent_row loaded self }
    {
        if !qs_is_online(self.word) {
            return Err(Refusal::NotOpen);
        }
        Ok(self.copying(loaded))
    }

    /// `quiescent`, second step: stores the word that closes the section and opens the next one.
    pub fn announce(self, reader: u32, number: u64) -> ReaderStep
        requires number { number < 2 ^ 63 }
        requires ordinal { self.ordinal + 1 < 2 ^ 64 }
        ensures { result ≡ announce_row number reader self }
    {
        let closed = Event::Close(self.section(reader));
        let state = self.reopened(qs_announced(number));
        let answer = Answer::Events {
            first: closed,
            second: Some(Event::Open(state.section(reader))),
        };
        ReaderStep { state, answer }
    }

    /// `offline`: stores the word that closes the section.
    pub fn offline(self, reader: u32) -> Result<ReaderStep, Refusal>
        ensures { result ≡ offline_row reader self }
    {
        if !qs_is_online(self.word) {
            return Err(Refusal::NotOpen);
        }
        Ok(self.closing(reader, 0))
    }

    /// `first` of a chain whose head was loaded.
    pub fn first(self, reader: u32, chain: u32, found: Option<ObjectId>) -> ReaderStep
        ensures { result ≡ found_row self found (First (section_of reader self.ordinal) chain found) }
    {
        let section = self.section(reader);
        self.got(
            found,
            Event::First {
                section,
                chain,
                found,
            },
        )
    }

    /// `next` from an object whose link was loaded.
    pub fn next(self, reader: u32, from: ObjectId, found: Option<ObjectId>) -> ReaderStep
        ensures { result ≡ found_row self found (Next (section_of reader self.ordinal) from found) }
    {
        let section = self.section(reader);
        self.got(
            found,
            Event::Next {
                section,
                from,
                found,
            },
        )
    }

    /// `touch` in an open section.
    pub fn touch(self, reader: u32) -> Result<ReaderStep, Refusal>
        ensures { result ≡ touch_row reader self self.cursor }
    {
        let Some(object) = self.cursor else {
            return Err(Refusal::NoPlace);
        };
        let section = self.section(reader);
        Ok(self.telling(Event::Touch { section, object }))
    }

    /// The section that the reader opened last.
    fn section(self, reader: u32) -> SectionId
        ensures { result ≡ section_of reader self.ordinal }
    {
        SectionId {
            reader,
            ordinal: self.ordinal,
        }
    }

    fn quietly(self) -> ReaderStep
        ensures { result ≡ quietly self }
    {
        ReaderStep {
            state: self,
            answer: Answer::Quiet,
        }
    }

    fn telling(self, event: Event) -> ReaderStep
        ensures { result ≡ telling event self }
    {
        ReaderStep {
            state: self,
            answer: Answer::Events {
                first: event,
                second: None,
            },
        }
    }

    /// The reader, with what it loaded and has yet to store.
    fn copying(mut self, copy: u64) -> ReaderStep
        ensures { result ≡ quietly (record self { copy = Some copy }) }
    {
        self.copy = Some(copy);
        self.quietly()
    }

    /// The reader, with another word and the same section.
    fn storing(mut self, word: u64) -> ReaderStep
        ensures { result ≡ quietly (with_word self word) }
    {
        self.word = word;
        self.quietly()
    }

    /// The reader with its next section, which the word opens.
    fn reopened(self, word: u64) -> ReaderState
        requires { self.ordinal + 1 < 2 ^ 64 }
        ensures { result ≡ opened self word }
    {
        ReaderState {
            word,
            ordinal: self.ordinal + 1,
            copy: None,
            cursor: None,
        }
    }

    fn opening(self, reader: u32, word: u64) -> ReaderStep
        requires { self.ordinal + 1 < 2 ^ 64 }
        ensures { result ≡ telling (Open (section_of reader (self.ordinal + 1))) (opened self word) }
    {
        let state = self.reopened(word);
        state.telling(Event::Open(state.section(reader)))
    }

    /// The reader with no section, which the word closes.
    fn closing(mut self, reader: u32, word: u64) -> ReaderStep
        ensures { result ≡ telling (Close (section_of reader self.ordinal)) (record self { word = word; cursor = None }) }
    {
        let closed = Event::Close(self.section(reader));
        self.word = word;
        self.cursor = None;
        self.telling(closed)
    }

    /// The reader, with what it found.
    fn got(mut self, found: Option<ObjectId>, event: Event) -> ReaderStep
        ensures { result ≡ found_row self found event }
    {
        self.cursor = found.or(self.cursor);
        self.telling(event)
    }
}
