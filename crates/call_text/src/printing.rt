//! The text of answers.

ghost use Rattle.std.specs.Prelude.{◌≡◌, ◌++◌, OnOk, OnErr};
ghost use Rattle.std.specs.List.{flat_map};
ghost use Rattle.std.specs.String.{string_bytes};
ghost use Rattle.call_text.specs.Answers.{numbers_text, words_text, called_text, pair_text, stop_text, back_text, tidied_text, answer_text, answer_line};

use crate::answer::{Answer, Called};
use rcu_model::Refusal;
use std::alloc::AllocError;

/// Writes each number at the end, after a space.
fn write_numbers(numbers: &[u64], text: &mut String) -> Result<(), AllocError>
    ensures { OnOk result (string_bytes text.new ≡ string_bytes text.old ++ numbers_text numbers.now) }
{
    for number in numbers {
        write!(text, " {number}")?;
    }
    Ok(())
}

/// Writes what each callback answered at the end, after a space.
fn write_called(called: &[Called], text: &mut String) -> Result<(), AllocError>
    ensures { OnOk result (string_bytes text.new ≡ string_bytes text.old ++ flat_map called_text called.now) }
{
    for one in called {
        write!(text, " {} o{} {}", one.ticket, one.object, one.code)?;
    }
    Ok(())
}

/// Writes each key and its value at the end, after a space.
fn write_pairs(pairs: &[(u64, u64)], text: &mut String) -> Result<(), AllocError>
    ensures { OnOk result (string_bytes text.new ≡ string_bytes text.old ++ flat_map pair_text pairs.now) }
{
    for (key, value) in pairs {
        write!(text, " {key}:{value}")?;
    }
    Ok(())
}

/// Writes where it stopped early at the end, if it did.
fn write_stop(stop: Option<Refusal>, text: &mut String) -> Result<(), AllocError>
    ensures { OnOk result (string_bytes text.new ≡ string_bytes text.old ++ stop_text stop) }
{
    match stop {
        None => Ok(()),
        Some(refusal) => write!(text, " stopped E{}", refusal.number()),
    }
}

/// Writes the codes of callbacks that come back at the end, if there are any.
fn write_back(back: &[u64], text: &mut String) -> Result<(), AllocError>
    ensures { OnOk result (string_bytes text.new ≡ string_bytes text.old ++ back_text back.now) }
{
    if back.is_empty() {
        return Ok(());
    }
    text.push_str(" back")?;
    write_numbers(back, text)
}

/// Writes the words at the end, with a space between two.
fn write_words(words: &[u64; 4], text: &mut String) -> Result<(), AllocError>
    ensures { OnOk result (string_bytes text.new ≡ string_bytes text.old ++ words_text words.now) }
{
    write!(text, "{}", words[0])?;
    write_numbers(&words[1..], text)
}

/// Writes what a tidying did at the end.
fn write_tidied(
    retired: u64,
    left: u64,
    back: &[u64],
    stop: Option<Refusal>,
    text: &mut String,
) -> Result<(), AllocError>
    ensures { OnOk result (string_bytes text.new ≡ string_bytes text.old ++ tidied_text retired left back.now stop) }
{
    write!(text, "retired {retired} left {left}")?;
    write_back(back, text)?;
    write_stop(stop, text)
}

/// Writes the answer at the end, without a line feed.
fn write_answer(answer: &Answer, text: &mut String) -> Result<(), AllocError>
    ensures { OnOk result (string_bytes text.new ≡ string_bytes text.old ++ answer_text answer.now) }
{
    match answer {
        Answer::Done => text.push_str("ok"),
        Answer::Quiet => text.push_str("."),
        Answer::Nothing => text.push_str("none"),
        Answer::Says(true) => text.push_str("yes"),
        Answer::Says(false) => text.push_str("no"),
        Answer::WouldWait => text.push_str("would wait"),
        Answer::Refused(refusal) => write!(text, "refused E{}", refusal.number()),
        Answer::Object(object) => write!(text, "o{object}"),
        Answer::Ticket(ticket) => write!(text, "ticket {ticket}"),
        Answer::Number(number) => write!(text, "{number}"),
        Answer::Words(words) => write_words(words, text),
        Answer::Counted {
            seq,
            records,
            waiting,
        } => {
            write!(text, "seq {seq} records {records} waiting")?;
            write_numbers(waiting, text)
        }
        Answer::Slots(slots) => {
            text.push_str("slots")?;
            write_numbers(slots, text)
        }
        Answer::Finished { called, stop } => {
            text.push_str("finished")?;
            write_called(called, text)?;
            write_stop(*stop, text)
        }
        Answer::Met(pairs) => {
            text.push_str("met")?;
            write_pairs(pairs, text)
        }
        Answer::Left(left) => write!(text, "left {left}"),
        Answer::Tidied {
            retired,
            left,
            back,
            stop,
        } => write_tidied(*retired, *left, back, *stop, text),
    }
}

/// Writes the answer at the end, a line. `AllocError` leaves `out` as it was.
pub fn print_answer(answer: &Answer, out: &mut Vec<u8>) -> Result<(), AllocError>
    ensures ok { OnOk result (out.new.items ≡ out.old.items ++ answer_line answer.now) }
    ensures err { OnErr result (out.new.items ≡ out.old.items) }
{
    let mut text = String::new(*out.allocator());
    write_answer(answer, &mut text)?;
    text.push_str("\n")?;
    out.extend_from_slice(text.as_bytes())
}
