//! A line of text as a call.

ghost use Rattle.std.specs.Prelude.{◌≡◌, ◌<◌, ◌≤◌, Ok, IfOk, IfErr};
ghost use Rattle.schedule_text.specs.Reading.{Gives};
ghost use Rattle.schedule_text.specs.Fault.{IsColumn};
ghost use Rattle.call_text.specs.declared.call.Call.{Call};
ghost use Rattle.call_text.specs.Spelling.{IsCall, IsCallText, listed, spelling};
ghost use Rattle.call_text.specs.Grammar.{value_at, argument_at, arguments_at, actor_at, verb_at, call_at};

use crate::call::{Actor, Call};
use crate::words::{
    ACTORS, ActorWord, Argument, Arguments, DOMAIN_WORDS, LIST_WORDS, READER_WORDS, TABLE_WORDS,
    UPDATER_WORDS, VerbWord, WORKER_WORDS,
};
use schedule_text::{NINE, NINETEEN, TextFault, column_of, ended_number, number, word};

/// A number that one byte ends. A value below `room` takes one more digit.
#[tactic(auto, unfolding(crate::specs::Grammar::value_at))]
fn front_value(room: u64, end: u8, text: &[u8]) -> Result<(u64, &[u8]), &[u8]>
    requires some { 0 < room }
    requires most { room ≤ 1000000000000000000 }
    ensures { Gives (λ n. n) result (value_at room end text.now) }
{
    let ((value, _), rest) = ended_number(room, end, end, text)?;
    Ok((value, rest))
}

/// The number in one place of a line.
fn front_argument(argument: Argument, text: &[u8]) -> Result<(u64, &[u8]), &[u8]>
    ensures { Gives (λ n. n) result (argument_at argument text.now) }
{
    match argument {
        Argument::Absent => Ok((0, text)),
        Argument::Number => front_value(NINE, b' ', text),
        Argument::LastNumber => front_value(NINE, b'\n', text),
        Argument::Value => front_value(NINETEEN, b' ', text),
        Argument::LastValue => front_value(NINETEEN, b'\n', text),
    }
}

/// The numbers after a word.
#[tactic(auto, unfolding(crate::specs::Grammar::arguments_at))]
fn front_arguments(asks: Arguments, text: &[u8]) -> Result<([u64; 4], &[u8]), &[u8]>
    ensures { Gives (λ n. n) result (arguments_at (listed asks) text.now) }
{
    let (first, rest) = front_argument(asks.0, text)?;
    let (second, rest) = front_argument(asks.1, rest)?;
    let (third, rest) = front_argument(asks.2, rest)?;
    let (fourth, rest) = front_argument(asks.3, rest)?;
    Ok(([first, second, third, fourth], rest))
}

/// Who calls.
#[tactic(auto, unfolding(crate::specs::Grammar::actor_at))]
fn front_actor(text: &[u8]) -> Result<(Actor, &[u8]), &[u8]>
    ensures { Gives (λ a. a) result (actor_at text.now) }
{
    let (word, rest) = word(&ACTORS, text)?;
    match word {
        ActorWord::Reader => {
            let (n, rest) = number(b' ', rest)?;
            Ok((Actor::Reader(n), rest))
        }
        ActorWord::Updater => {
            let (n, rest) = number(b' ', rest)?;
            Ok((Actor::Updater(n), rest))
        }
        ActorWord::Worker => {
            let (n, rest) = number(b' ', rest)?;
            Ok((Actor::Worker(n), rest))
        }
        ActorWord::List => {
            let (n, rest) = number(b' ', rest)?;
            Ok((Actor::List(n), rest))
        }
        ActorWord::Table => {
            let (n, rest) = number(b' ', rest)?;
            Ok((Actor::Table(n), rest))
        }
        ActorWord::Domain => Ok((Actor::Domain, rest)),
    }
}

/// A verb that this actor may call.
#[tactic(auto, unfolding(crate::specs::Grammar::verb_at))]
fn front_verb(actor: Actor, text: &[u8]) -> Result<(VerbWord, &[u8]), &[u8]>
    ensures { Gives (λ v. v) result (verb_at actor text.now) }
{
    match actor {
        Actor::Reader(_) => word(&READER_WORDS, text),
        Actor::Updater(_) => word(&UPDATER_WORDS, text),
        Actor::Worker(_) => word(&WORKER_WORDS, text),
        Actor::List(_) => word(&LIST_WORDS, text),
        Actor::Table(_) => word(&TABLE_WORDS, text),
        Actor::Domain => word(&DOMAIN_WORDS, text),
    }
}

/// The call at the front of the text, and what comes after it; or the bytes from the first bad one on, of which there
/// are none where the text may go on.
#[tactic(auto, unfolding(crate::specs::Grammar::call_at))]
pub fn front_call(text: &[u8]) -> Result<(Call, &[u8]), &[u8]>
    ensures { Gives (λ c. c) result (call_at text.now) }
{
    let (actor, rest) = front_actor(text)?;
    let (VerbWord(verb, asks), rest) = front_verb(actor, rest)?;
    let (numbers, rest) = front_arguments(asks, rest)?;
    let call = Call {
        actor,
        verb,
        numbers,
    };
    Ok((call, rest))
}

/// The call that the text is, with its line feed. `TextFault` where it is none, at the column of its first byte with
/// which no call goes on.
pub fn read_call(text: &[u8]) -> Result<Call, TextFault>
    ensures found { IfOk result (λ call. IsCall call × (text.now ≡ spelling call)) }
    ensures only { (call : Call) → IsCall call → text.now ≡ spelling call → result ≡ Ok call }
    ensures column { IfErr result (λ fault. IsColumn IsCallText text.now fault.column) }
{
    match front_call(text) {
        Ok((call, rest)) => {
            if rest.is_empty() {
                Ok(call)
            } else {
                let column = column_of(text, rest);
                Err(TextFault { column })
            }
        }
        Err(bad) => {
            let column = column_of(text, bad);
            Err(TextFault { column })
        }
    }
}
