//! A line of text as a line.

ghost use Rattle.std.specs.Prelude.{◌≡◌, ◌≢◌, ◌<◌, ◌≤◌, ◌+◌, length, Ok, IfOk, IfErr, IfSome, IfNone};
ghost use Rattle.world_state.specs.declared.line.Line.{Line};
ghost use Rattle.schedule_text.specs.Spelling.{IsLine, IsLineText, spelling};
ghost use Rattle.schedule_text.specs.Fault.{IsColumn};
ghost use Rattle.schedule_text.specs.Reading.{Gives};
ghost use Rattle.schedule_text.specs.Grammar.{reader_verb_at, updater_verb_at, worker_verb_at, line_at, GoesOn, BeginsGoingOn};

use crate::pieces::{number, word};
use crate::words::{
    ACTORS, ActorWord, READER_WORDS, ReaderWord, UPDATER_WORDS, UpdaterWord, WORKER_WORDS,
};
use rcu_model::ObjectId;
use thiserror::Error;
use world_state::{Line, ReaderVerb, UpdaterVerb, WorkerVerb};

#[tactic(auto, unfolding(crate::specs::Grammar::reader_verb_at))]
fn reader_verb(text: &[u8]) -> Result<(ReaderVerb, &[u8]), &[u8]>
    ensures { Gives (λ v. v) result (reader_verb_at text.now) }
{
    let (word, rest) = word(&READER_WORDS, text)?;
    match word {
        ReaderWord::Whole(verb) => Ok((verb, rest)),
        ReaderWord::FirstOf => {
            let (chain, rest) = number(b'\n', rest)?;
            Ok((ReaderVerb::First(chain), rest))
        }
    }
}

#[tactic(auto, unfolding(crate::specs::Grammar::updater_verb_at))]
fn updater_verb(text: &[u8]) -> Result<(UpdaterVerb, &[u8]), &[u8]>
    ensures { Gives (λ v. v) result (updater_verb_at text.now) }
{
    let (word, rest) = word(&UPDATER_WORDS, text)?;
    match word {
        UpdaterWord::Whole(verb) => Ok((verb, rest)),
        UpdaterWord::PushTo => {
            let (chain, rest) = number(b'\n', rest)?;
            Ok((UpdaterVerb::Push(chain), rest))
        }
        UpdaterWord::ReplaceOf => {
            let (object, rest) = number(b'\n', rest)?;
            Ok((UpdaterVerb::Replace(ObjectId(u64::from(object))), rest))
        }
        UpdaterWord::CutOf => {
            let (object, rest) = number(b'\n', rest)?;
            Ok((UpdaterVerb::Cut(ObjectId(u64::from(object))), rest))
        }
        UpdaterWord::RetireOf => {
            let (object, rest) = number(b'\n', rest)?;
            Ok((UpdaterVerb::Retire(ObjectId(u64::from(object))), rest))
        }
    }
}

#[tactic(auto, unfolding(crate::specs::Grammar::worker_verb_at))]
fn worker_verb(text: &[u8]) -> Result<(WorkerVerb, &[u8]), &[u8]>
    ensures { Gives (λ v. v) result (worker_verb_at text.now) }
{
    word(&WORKER_WORDS, text)
}

/// The line at the front of the text, and what comes after it; or the bytes from the first bad one on, of which there
/// are none where the text may go on.
// One call for each line, whose answer then stays in registers.
#[inline(always)]
#[tactic(auto, unfolding(crate::specs::Grammar::line_at))]
pub fn front_line(text: &[u8]) -> Result<(Line, &[u8]), &[u8]>
    ensures { Gives (λ l. l) result (line_at text.now) }
{
    let (actor, rest) = word(&ACTORS, text)?;
    let (n, rest) = number(b' ', rest)?;
    match actor {
        ActorWord::Reader => {
            let (verb, rest) = reader_verb(rest)?;
            Ok((Line::Reader(n, verb), rest))
        }
        ActorWord::Updater => {
            let (verb, rest) = updater_verb(rest)?;
            Ok((Line::Updater(n, verb), rest))
        }
        ActorWord::Worker => {
            let (verb, rest) = worker_verb(rest)?;
            Ok((Line::Worker(n, verb), rest))
        }
    }
}

/// The line with which the actor of this letter goes on, if it is one.
// One call for each line of a schedule.
#[inline(always)]
fn go_on_line(actor: u8, n: u32) -> Option<Line>
    ensures line { IfSome result (λ line. GoesOn actor n line) }
    ensures none { IfNone result ((actor ≢ 114) × (actor ≢ 117) × (actor ≢ 119)) }
{
    match actor {
        b'w' => Some(Line::Worker(n, WorkerVerb::GoOn)),
        b'u' => Some(Line::Updater(n, UpdaterVerb::GoOn)),
        b'r' => Some(Line::Reader(n, ReaderVerb::GoOn)),
        _ => None,
    }
}

/// The line at the front of the text, and what comes after it, if an actor below ten goes on there; else none, whatever
/// stands there. Most lines are such ones, and are read faster here than by `front_line`.
// One call for each line of a schedule, whose answer then stays in registers.
#[inline(always)]
pub fn front_go_on(text: &[u8]) -> Option<(Line, &[u8])>
    ensures front { IfSome result (λ found. line_at text.now ≡ Ok (found.0, found.1.now)) }
    ensures none { IfNone result (¬ BeginsGoingOn text.now) }
    ensures shrinks { IfSome result (λ found. length found.1.now < length text.now) }
{
    if let [actor, digit, b' ', b'.', b'\n', rest @ ..] = text
        && digit.is_ascii_digit()
    {
        let line = go_on_line(*actor, u32::from(*digit - b'0'))?;
        return Some((line, rest));
    }
    None
}

/// Text that is no line, and the column of its first byte with which no line goes on.
#[derive(Clone, Copy, Debug, PartialEq, Eq, Drop, Error)]
#[error("column {column}: bad text")]
pub struct TextFault {
    /// In bytes, from 1. It is one past the last byte where the text has no end.
    pub column: usize,
}

/// The column of the byte that begins this end of the text.
pub fn column_of(text: &[u8], bad: &[u8]) -> usize
    requires { length bad.now ≤ length text.now }
    ensures { result + length bad.now ≡ length text.now + 1 }
{
    text.len() - bad.len() + 1
}

/// The line after a header that the text is, with its line feed. `TextFault` where it is none, at the column of
/// its first byte with which no line goes on.
pub fn read_line(text: &[u8]) -> Result<Line, TextFault>
    ensures found { IfOk result (λ line. IsLine line × (text.now ≡ spelling line)) }
    ensures only { (line : Line) → IsLine line → text.now ≡ spelling line → result ≡ Ok line }
    ensures column { IfErr result (λ fault. IsColumn IsLineText text.now fault.column) }
{
    match front_line(text) {
        Ok((line, rest)) => {
            if rest.is_empty() {
                Ok(line)
            } else {
                let column = column_of(text, rest);
                Err(TextFault { column })
            }
        }
        Err(bad) => {
            let column = column_of(text, bad);
            Err(TextFault { column })
        }
    }
}
