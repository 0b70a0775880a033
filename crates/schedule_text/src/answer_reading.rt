//! Lines of answers as the events that they tell.

ghost use Rattle.std.specs.Prelude.{◌≡◌, ◌++◌, ◌<◌, ℕ, List, Err, OnOk, OnErr, IfOk, IfErr};
ghost use Rattle.rcu_model.specs.declared.event.Event.{Event};
ghost use Rattle.schedule_text.specs.Reading.{Gives};
ghost use Rattle.schedule_text.specs.AnswerGrammar.{event_word_at, answer_word_at, second_at, events_at, end_at, refused_at, answer_line_at};
ghost use Rattle.schedule_text.specs.AnswerLines.{TellsLog, IsNoAnswers, told_by};
ghost use Rattle.schedule_text.specs.AnswerPieces.{ReadSoFar, ReadsOn};
ghost use Rattle.schedule_text.specs.declared.fault.AnswersFault.TheVariants.{Memory};

use crate::answer_line::AnswerLine;
use crate::answer_words::{ANSWER_WORDS, AnswerWord, EVENT_WORDS, EventWord, RUN, WAITING};
use crate::counts::Counts;
use crate::event_reading::{byte, event, long};
use crate::fault::AnswersFault;
use crate::pieces::{likely_word, word};
use crate::reading::column_of;
use rcu_model::Event;
use std::alloc::Global;

/// The word of an event.
fn event_word(text: &[u8]) -> Result<(EventWord, &[u8]), &[u8]>
    ensures { Gives (λ w. w) result (event_word_at text.now) }
{
    word(&EVENT_WORDS, text)
}

/// The word with which a line begins, where it most likely is the one at this place of the table. A wrong guess costs
/// time and no more.
#[inline(always)]
fn likely(place: usize, text: &[u8]) -> Result<(AnswerWord, &[u8]), &[u8]>
    requires { place < 21 }
    ensures { Gives (λ w. w) result (answer_word_at text.now) }
{
    likely_word(&ANSWER_WORDS, place, text)
}

/// The word with which a line begins, which is looked for where its first bytes say.
fn answer_word(text: &[u8]) -> Result<(AnswerWord, &[u8]), &[u8]>
    ensures { Gives (λ w. w) result (answer_word_at text.now) }
{
    match text {
        [b'.', ..] => likely(0, text),
        [b'o', ..] => likely(1, text),
        [b'c', b'l', b'o', ..] => likely(2, text),
        [b'f', ..] => likely(3, text),
        [b'n', ..] => likely(4, text),
        [b't', ..] => likely(5, text),
        [b'p', ..] => likely(6, text),
        [b'r', b'e', b'p', ..] => likely(7, text),
        [b'c', b'u', ..] => likely(8, text),
        [b'r', b'e', b't', ..] => likely(9, text),
        [b'q', ..] => likely(10, text),
        [b'r', b'u', ..] => likely(11, text),
        [b'a', b's', ..] => likely(12, text),
        [b'a', b'n', ..] => likely(13, text),
        [b'b', b'a', ..] => likely(14, text),
        [b'c', b'l', b'e', ..] => likely(15, text),
        _ => word(&ANSWER_WORDS, text),
    }
}

/// The second of two events, which ends the line.
#[tactic(auto, unfolding(crate::specs::AnswerGrammar::second_at))]
fn second(first: Event, text: &[u8]) -> Result<(AnswerLine, &[u8]), &[u8]>
    ensures { Gives (λ l. l) result (second_at first text.now) }
{
    let (_, rest) = byte(b' ', b' ', text)?;
    let (word, rest) = event_word(rest)?;
    let ((second, _), rest) = event(word, b'\n', rest)?;
    let second = Some(second);
    Ok((AnswerLine::Events { first, second }, rest))
}

/// An event that ends the line, or two.
#[tactic(auto, unfolding(crate::specs::AnswerGrammar::events_at))]
fn events(word: EventWord, text: &[u8]) -> Result<(AnswerLine, &[u8]), &[u8]>
    ensures { Gives (λ l. l) result (events_at word text.now) }
{
    let ((first, end), rest) = event(word, b';', text)?;
    if end == b'\n' {
        let second = None;
        Ok((AnswerLine::Events { first, second }, rest))
    } else {
        second(first, rest)
    }
}

/// The end line, after its first word.
#[tactic(auto, unfolding(crate::specs::AnswerGrammar::end_at))]
fn end(text: &[u8]) -> Result<(AnswerLine, &[u8]), &[u8]>
    ensures { Gives (λ l. l) result (end_at text.now) }
{
    let ((sections, _), rest) = long(b' ', b' ', text)?;
    let (_, rest) = word(&WAITING, rest)?;
    let ((waiting, _), rest) = long(b' ', b' ', rest)?;
    let (_, rest) = word(&RUN, rest)?;
    let ((runs, _), rest) = long(b'\n', b'\n', rest)?;
    let counts = Counts {
        sections,
        waiting,
        runs,
    };
    Ok((AnswerLine::End(counts), rest))
}

/// A refusal, after its word.
#[tactic(auto, unfolding(crate::specs::AnswerGrammar::refused_at))]
fn refused(text: &[u8]) -> Result<(AnswerLine, &[u8]), &[u8]>
    ensures { Gives (λ l. l) result (refused_at text.now) }
{
    let ((number, _), rest) = long(b'\n', b'\n', text)?;
    Ok((AnswerLine::Refused(number), rest))
}

/// The line of answers at the front of the text, and what comes after it; or the bytes from the first bad one on.
#[tactic(auto, unfolding(crate::specs::AnswerGrammar::answer_line_at))]
fn front_answer(text: &[u8]) -> Result<(AnswerLine, &[u8]), &[u8]>
    ensures { Gives (λ l. l) result (answer_line_at text.now) }
{
    let (word, rest) = answer_word(text)?;
    match word {
        AnswerWord::Event(word) => events(word, rest),
        AnswerWord::Whole(word) => Ok((word.line(), rest)),
        AnswerWord::Refused => refused(rest),
        AnswerWord::End => end(rest),
    }
}

/// Writes what the line says happened at the end.
fn note(line: AnswerLine, log: &mut Vec<Event>) -> Result<(), AnswersFault>
    ensures noted { OnOk result (log.new.items ≡ log.old.items ++ told_by line) }
    ensures memory { OnErr result (result ≡ Err Memory) }
{
    if let AnswerLine::Events { first, second } = line {
        log.push(first)?;
        if let Some(second) = second {
            log.push(second)?;
        }
    }
    Ok(())
}

/// Puts the events of the lines at the front of the text at the end of the log, and counts the lines: answers what
/// comes after them, which goes on to a line or is empty.
pub fn front_answers<'a>(
    text: &'a [u8],
    line: &mut u64,
    log: &mut Vec<Event>,
) -> Result<&'a [u8], AnswersFault>
    ensures { (all : List ℕ) (earlier : List Event) → ReadSoFar all text.now (earlier ++ log.old.items) line.old → ReadsOn all (earlier ++ log.new.items) line.new result }
{
    let mut rest = text;
    loop {
        match front_answer(rest) {
            Ok((answer, after)) => {
                note(answer, log)?;
                *line = line.saturating_add(1);
                rest = after;
            }
            Err(bad) => {
                if bad.is_empty() {
                    return Ok(rest);
                }
                let column = column_of(rest, bad);
                return Err(AnswersFault::BadText {
                    line: *line,
                    column,
                });
            }
        }
    }
}

/// The log that the text tells: the events of its lines of answers, in order. An empty text tells a log of no events.
///
/// # Errors
/// `BadText` at the first byte with which no line of answers goes on, or after a line that has no end; `Memory` where
/// memory was refused.
pub fn read_answers(alloc: Global, text: &[u8]) -> Result<Vec<Event>, AnswersFault>
    ensures found { IfOk result (λ log. TellsLog text.now log.items) }
    ensures only { (log : List Event) → TellsLog text.now log → IfOk result (λ read. read.items ≡ log) × IfErr result (λ fault. fault ≡ Memory) }
    ensures fault { IfErr result (λ fault. IsNoAnswers text.now fault) }
{
    let mut log = Vec::new(alloc);
    let mut line = 1u64;
    let rest = front_answers(text, &mut line, &mut log)?;
    if !rest.is_empty() {
        let column = rest.len() + 1;
        return Err(AnswersFault::BadText { line, column });
    }
    Ok(log)
}
