//! The text of answers.

ghost use Rattle.std.specs.Prelude.{◌≡◌, ◌++◌, OnOk, OnErr, IfOk};
ghost use Rattle.std.specs.String.{string_bytes};
ghost use Rattle.rcu_model.specs.EventText.{text_of};
ghost use Rattle.schedule_text.specs.Answers.{answer_line, end_line};
ghost use Rattle.world_state.specs.declared.line.Answer.TheVariants.{Events};

use crate::counts::Counts;
use rcu_model::Event;
use std::alloc::{AllocError, Global};
use world_state::{Answer, StepError};

/// Writes the event's text at the end. `AllocError` changes nothing.
pub fn print_event(alloc: Global, event: &Event, out: &mut String) -> Result<(), AllocError>
    ensures ok { OnOk result (string_bytes out.new ≡ string_bytes out.old ++ text_of event.now) }
    ensures err { OnErr result (string_bytes out.new ≡ string_bytes out.old) }
{
    let text = event.to_string(alloc)?;
    out.push_str(&text)
}

/// Writes two events at the end, a line.
fn write_both(first: &Event, second: &Event, text: &mut String) -> Result<(), AllocError>
    ensures { OnOk result (string_bytes text.new ≡ string_bytes text.old ++ answer_line (Ok (Events first.now (Some second.now)))) }
{
    writeln!(text, "{first}; {second}")
}

/// Writes what a step answered at the end, a line.
fn write_answer(answer: &Result<Answer, StepError>, text: &mut String) -> Result<(), AllocError>
    ensures { OnOk result (string_bytes text.new ≡ string_bytes text.old ++ answer_line answer.now) }
{
    match answer {
        Ok(Answer::Events { first, second }) => match second {
            None => writeln!(text, "{first}"),
            Some(second) => write_both(first, second, text),
        },
        Ok(Answer::Quiet) => text.push_str(".\n"),
        Ok(Answer::Wait) => text.push_str("wait\n"),
        Ok(Answer::Blocked) => text.push_str("blocked\n"),
        Ok(Answer::Idle) => text.push_str("idle\n"),
        Err(refusal) => writeln!(text, "refused E{}", refusal.number()),
    }
}

/// As `print_answer`, whatever the answer. It stands alone, so that what is left of `print_answer` is inlined.
#[inline(never)]
fn print_any_answer(
    answer: &Result<Answer, StepError>,
    text: &mut String,
    out: &mut Vec<u8>,
) -> Result<(), AllocError>
    ensures ok { OnOk result (out.new.items ≡ out.old.items ++ answer_line answer.now) }
    ensures err { OnErr result (out.new.items ≡ out.old.items) }
{
    text.clear();
    write_answer(answer, text)?;
    out.extend_from_slice(text.as_bytes())
}

/// Writes what a step answered at the end, a line. What is in `text` is lost: it is made use of, so that not each
/// answer takes memory of its own. `AllocError` leaves `out` as it was.
pub fn print_answer(
    answer: &Result<Answer, StepError>,
    text: &mut String,
    out: &mut Vec<u8>,
) -> Result<(), AllocError>
    ensures ok { OnOk result (out.new.items ≡ out.old.items ++ answer_line answer.now) }
    ensures err { OnErr result (out.new.items ≡ out.old.items) }
{
    // Most answers are this one.
    if let Ok(Answer::Quiet) = answer {
        return out.extend_from_slice(b".\n");
    }
    print_any_answer(answer, text, out)
}

/// Writes the end line at the end. `AllocError` changes nothing.
pub fn print_end(alloc: Global, counts: &Counts, out: &mut Vec<u8>) -> Result<(), AllocError>
    ensures ok { OnOk result (out.new.items ≡ out.old.items ++ end_line counts.now) }
    ensures err { OnErr result (out.new.items ≡ out.old.items) }
{
    let text = format!(in alloc;
        "end open={} waiting={} run={}\n",
        counts.sections, counts.waiting, counts.runs
    )?;
    out.extend_from_slice(text.as_bytes())
}
