//! The text of an event as an event. Each reads at the front of the text, and gives the byte that ended the event and
//! the bytes after it, or the bytes from the first bad one on. A line feed may end an event, and one other byte.

ghost use Rattle.schedule_text.specs.Reading.{Gives};
ghost use Rattle.schedule_text.specs.AnswerGrammar.{byte_at, long_at, short_at, object_at, marked_object_at, section_at, found_at, section_event_at, first_at, next_at, touch_at, reading_event_at, push_at, cut_at, replace_at, chain_event_at, queue_at, retire_at, run_at, object_event_at, wait_event_at, event_rest};

use crate::answer_words::{
    ChainWord, EventWord, FOUND_WORDS, FoundWord, ObjectWord, ReadingWord, SectionWord, WaitWord,
};
use crate::pieces::{NINE, NINETEEN, ended_number, number, word};
use rcu_model::{Event, ObjectId, SectionId};

/// One byte, which is one of two.
#[tactic(auto, unfolding(crate::specs::AnswerGrammar::byte_at))]
pub fn byte(end: u8, other: u8, text: &[u8]) -> Result<(u8, &[u8]), &[u8]>
    ensures { Gives (λ b. b) result (byte_at end other text.now) }
{
    let [first, after @ ..] = text else {
        return Err(text);
    };
    if *first == end || *first == other {
        Ok((*first, after))
    } else {
        Err(text)
    }
}

/// A number of at most nineteen digits, and the byte that ends it.
#[tactic(auto, unfolding(crate::specs::AnswerGrammar::long_at))]
pub fn long(end: u8, other: u8, text: &[u8]) -> Result<((u64, u8), &[u8]), &[u8]>
    ensures { Gives (λ n. n) result (long_at end other text.now) }
{
    ended_number(NINETEEN, end, other, text)
}

/// A number of at most nine digits, and the byte that ends it.
#[tactic(auto, unfolding(crate::specs::AnswerGrammar::short_at))]
fn short(end: u8, other: u8, text: &[u8]) -> Result<((u32, u8), &[u8]), &[u8]>
    ensures { Gives (λ n. n) result (short_at end other text.now) }
{
    let ((value, end), rest) = ended_number(NINE, end, other, text)?;
    Ok(((value as u32, end), rest))
}

/// An object after its `o`.
#[tactic(auto, unfolding(crate::specs::AnswerGrammar::object_at))]
fn object(end: u8, other: u8, text: &[u8]) -> Result<((ObjectId, u8), &[u8]), &[u8]>
    ensures { Gives (λ o. o) result (object_at end other text.now) }
{
    let ((number, end), rest) = long(end, other, text)?;
    Ok(((ObjectId(number), end), rest))
}

/// A further object, with its `o`.
#[tactic(auto, unfolding(crate::specs::AnswerGrammar::marked_object_at))]
fn marked_object(end: u8, other: u8, text: &[u8]) -> Result<((ObjectId, u8), &[u8]), &[u8]>
    ensures { Gives (λ o. o) result (marked_object_at end other text.now) }
{
    let (_, rest) = byte(b'o', b'o', text)?;
    object(end, other, rest)
}

/// A section after its `r`.
#[tactic(auto, unfolding(crate::specs::AnswerGrammar::section_at))]
fn section(end: u8, other: u8, text: &[u8]) -> Result<((SectionId, u8), &[u8]), &[u8]>
    ensures { Gives (λ s. s) result (section_at end other text.now) }
{
    let (reader, rest) = number(b'.', text)?;
    let ((ordinal, end), rest) = long(end, other, rest)?;
    Ok(((SectionId { reader, ordinal }, end), rest))
}

/// What a section found, if it found something.
#[inline(always)]
#[tactic(auto, unfolding(crate::specs::AnswerGrammar::found_at))]
fn found(other: u8, text: &[u8]) -> Result<((Option<ObjectId>, u8), &[u8]), &[u8]>
    ensures { Gives (λ f. f) result (found_at other text.now) }
{
    let (word, rest) = word(&FOUND_WORDS, text)?;
    match word {
        FoundWord::Object => {
            let ((found, end), rest) = object(b'\n', other, rest)?;
            Ok(((Some(found), end), rest))
        }
        FoundWord::Nothing => {
            let (end, rest) = byte(b'\n', other, rest)?;
            Ok(((None, end), rest))
        }
    }
}

/// A section that opens or closes.
#[inline(always)]
#[tactic(auto, unfolding(crate::specs::AnswerGrammar::section_event_at))]
fn section_event(word: SectionWord, other: u8, text: &[u8]) -> Result<((Event, u8), &[u8]), &[u8]>
    ensures { Gives (λ e. e) result (section_event_at word other text.now) }
{
    let ((section, end), rest) = section(b'\n', other, text)?;
    let event = match word {
        SectionWord::Open => Event::Open(section),
        SectionWord::Close => Event::Close(section),
    };
    Ok(((event, end), rest))
}

#[inline(always)]
#[tactic(auto, unfolding(crate::specs::AnswerGrammar::first_at))]
fn first(other: u8, text: &[u8]) -> Result<((Event, u8), &[u8]), &[u8]>
    ensures { Gives (λ e. e) result (first_at other text.now) }
{
    let ((section, _), rest) = section(b' ', b' ', text)?;
    let (_, rest) = byte(b'c', b'c', rest)?;
    let (chain, rest) = number(b' ', rest)?;
    let ((found, end), rest) = found(other, rest)?;
    let event = Event::First {
        section,
        chain,
        found,
    };
    Ok(((event, end), rest))
}

#[inline(always)]
#[tactic(auto, unfolding(crate::specs::AnswerGrammar::next_at))]
fn next(other: u8, text: &[u8]) -> Result<((Event, u8), &[u8]), &[u8]>
    ensures { Gives (λ e. e) result (next_at other text.now) }
{
    let ((section, _), rest) = section(b' ', b' ', text)?;
    let ((from, _), rest) = marked_object(b' ', b' ', rest)?;
    let ((found, end), rest) = found(other, rest)?;
    let event = Event::Next {
        section,
        from,
        found,
    };
    Ok(((event, end), rest))
}

#[inline(always)]
#[tactic(auto, unfolding(crate::specs::AnswerGrammar::touch_at))]
fn touch(other: u8, text: &[u8]) -> Result<((Event, u8), &[u8]), &[u8]>
    ensures { Gives (λ e. e) result (touch_at other text.now) }
{
    let ((section, _), rest) = section(b' ', b' ', text)?;
    let ((object, end), rest) = marked_object(b'\n', other, rest)?;
    Ok(((Event::Touch { section, object }, end), rest))
}

/// A section that reads.
#[inline(always)]
fn reading_event(word: ReadingWord, other: u8, text: &[u8]) -> Result<((Event, u8), &[u8]), &[u8]>
    ensures { Gives (λ e. e) result (reading_event_at word other text.now) }
{
    match word {
        ReadingWord::First => first(other, text),
        ReadingWord::Next => next(other, text),
        ReadingWord::Touch => touch(other, text),
    }
}

#[inline(always)]
#[tactic(auto, unfolding(crate::specs::AnswerGrammar::push_at))]
fn push(other: u8, text: &[u8]) -> Result<((Event, u8), &[u8]), &[u8]>
    ensures { Gives (λ e. e) result (push_at other text.now) }
{
    let (chain, rest) = number(b' ', text)?;
    let ((object, end), rest) = marked_object(b'\n', other, rest)?;
    Ok(((Event::Push { chain, object }, end), rest))
}

#[inline(always)]
#[tactic(auto, unfolding(crate::specs::AnswerGrammar::replace_at))]
fn replace(other: u8, text: &[u8]) -> Result<((Event, u8), &[u8]), &[u8]>
    ensures { Gives (λ e. e) result (replace_at other text.now) }
{
    let (chain, rest) = number(b' ', text)?;
    let ((old, _), rest) = marked_object(b' ', b' ', rest)?;
    let ((new, end), rest) = marked_object(b'\n', other, rest)?;
    Ok(((Event::Replace { chain, old, new }, end), rest))
}

#[inline(always)]
#[tactic(auto, unfolding(crate::specs::AnswerGrammar::cut_at))]
fn cut(other: u8, text: &[u8]) -> Result<((Event, u8), &[u8]), &[u8]>
    ensures { Gives (λ e. e) result (cut_at other text.now) }
{
    let (chain, rest) = number(b' ', text)?;
    let ((object, end), rest) = marked_object(b'\n', other, rest)?;
    Ok(((Event::Cut { chain, object }, end), rest))
}

/// What becomes of a chain.
#[inline(always)]
fn chain_event(word: ChainWord, other: u8, text: &[u8]) -> Result<((Event, u8), &[u8]), &[u8]>
    ensures { Gives (λ e. e) result (chain_event_at word other text.now) }
{
    match word {
        ChainWord::Push => push(other, text),
        ChainWord::Replace => replace(other, text),
        ChainWord::Cut => cut(other, text),
    }
}

#[inline(always)]
#[tactic(auto, unfolding(crate::specs::AnswerGrammar::retire_at))]
fn retire(other: u8, text: &[u8]) -> Result<((Event, u8), &[u8]), &[u8]>
    ensures { Gives (λ e. e) result (retire_at other text.now) }
{
    let ((object, end), rest) = object(b'\n', other, text)?;
    Ok(((Event::Retire(object), end), rest))
}

#[inline(always)]
#[tactic(auto, unfolding(crate::specs::AnswerGrammar::queue_at))]
fn queue(other: u8, text: &[u8]) -> Result<((Event, u8), &[u8]), &[u8]>
    ensures { Gives (λ e. e) result (queue_at other text.now) }
{
    let ((object, _), rest) = object(b' ', b' ', text)?;
    let (_, rest) = byte(b'q', b'q', rest)?;
    let ((queue, end), rest) = short(b'\n', other, rest)?;
    Ok(((Event::Queue { object, queue }, end), rest))
}

#[inline(always)]
#[tactic(auto, unfolding(crate::specs::AnswerGrammar::run_at))]
fn run(other: u8, text: &[u8]) -> Result<((Event, u8), &[u8]), &[u8]>
    ensures { Gives (λ e. e) result (run_at other text.now) }
{
    let ((object, end), rest) = object(b'\n', other, text)?;
    Ok(((Event::Run(object), end), rest))
}

/// What becomes of an object that left its chain.
#[inline(always)]
fn object_event(word: ObjectWord, other: u8, text: &[u8]) -> Result<((Event, u8), &[u8]), &[u8]>
    ensures { Gives (λ e. e) result (object_event_at word other text.now) }
{
    match word {
        ObjectWord::Retire => retire(other, text),
        ObjectWord::Queue => queue(other, text),
        ObjectWord::Run => run(other, text),
    }
}

/// What becomes of a grace period or a barrier.
#[inline(always)]
#[tactic(auto, unfolding(crate::specs::AnswerGrammar::wait_event_at))]
fn wait_event(word: WaitWord, other: u8, text: &[u8]) -> Result<((Event, u8), &[u8]), &[u8]>
    ensures { Gives (λ e. e) result (wait_event_at word other text.now) }
{
    let ((number, end), rest) = long(b'\n', other, text)?;
    let event = match word {
        WaitWord::Ask => Event::Ask(number),
        WaitWord::Answer => Event::Answer(number),
        WaitWord::Bar => Event::Bar(number),
        WaitWord::Clear => Event::Clear(number),
    };
    Ok(((event, end), rest))
}

/// The event that begins with the word.
#[inline(always)]
#[tactic(auto, unfolding(crate::specs::AnswerGrammar::event_rest))]
pub fn event(word: EventWord, other: u8, text: &[u8]) -> Result<((Event, u8), &[u8]), &[u8]>
    ensures { Gives (λ e. e) result (event_rest word other text.now) }
{
    match word {
        EventWord::Section(word) => section_event(word, other, text),
        EventWord::Reading(word) => reading_event(word, other, text),
        EventWord::Chain(word) => chain_event(word, other, text),
        EventWord::Object(word) => object_event(word, other, text),
        EventWord::Wait(word) => wait_event(word, other, text),
    }
}
