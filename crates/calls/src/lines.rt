//! The lines of a script, answered one after the other.

ghost use Rattle.std.specs.Prelude.{◌≡◌, ◌++◌, OnOk};
ghost use Rattle.call_text.specs.declared.answer.Answer.{Answer};
ghost use Rattle.call_text.specs.Answers.{answer_line};
ghost use Rattle.calls.specs.Script.{AnswersLines, WritesPiece, StopsAt};

use crate::names::Names;
use crate::sessions::Answers;
use call_text::{Answer, Call, Verb, front_call, print_answer};
use rcu_model::Refusal;
use schedule::{PIECE, ReplayFault, write_whole};
use schedule_text::column_of;
use std::alloc::{AllocError, Global};
use std::io::Write;
use std::sync::Wait;

/// Makes a call; and for `again` the one that was made last, where it was refused memory.
fn answer_call<S: Answers, H: Wait>(
    rt: &H,
    alloc: Global,
    session: &mut S,
    refused: &mut Option<Call>,
    call: Call,
) -> Answer
    requires { S.stands session.old }
    ensures { S.stands session.new }
{
    let made = if call.verb == Verb::Again {
        *refused
    } else {
        Some(call)
    };
    let Some(call) = made else {
        return Answer::Quiet;
    };
    let answer = session.answer(rt, alloc, &call);
    *refused = if answer == Answer::Refused(Refusal::Memory) {
        Some(call)
    } else {
        None
    };
    answer
}

/// Makes a call, and prints its answer at the end of `out`.
fn answer_one<S: Answers, H: Wait>(
    rt: &H,
    alloc: Global,
    session: &mut S,
    refused: &mut Option<Call>,
    names: &mut Names,
    call: Call,
    out: &mut Vec<u8>,
) -> Result<(), AllocError>
    requires { S.stands session.old }
    ensures stands { S.stands session.new }
    ensures printed { OnOk result ((answer : Answer) × (out.new.items ≡ out.old.items ++ answer_line answer)) }
{
    let answer = answer_call(rt, alloc, session, refused, call);
    print_answer(&names.tell(answer)?, out)?;
    Ok(())
}

/// Writes the answers so far, where they are more than a piece.
fn write_piece<W: Write>(writer: &mut W, out: &mut Vec<u8>) -> Result<(), ReplayFault>
    ensures { WritesPiece (W.contents writer.old) (W.contents writer.new) out.old.items out.new.items result }
{
    if out.len() <= PIECE {
        return Ok(());
    }
    write_whole(writer, out)?;
    out.clear();
    Ok(())
}

/// Writes the answers of the lines before a bad one, and tells its place.
fn stop_at<W: Write>(
    writer: &mut W,
    out: &[u8],
    line: u64,
    column: usize,
) -> Result<(), ReplayFault>
    ensures { StopsAt (W.contents writer.old) (W.contents writer.new) out.now line column result }
{
    write_whole(writer, out)?;
    Err(ReplayFault::BadText { line, column })
}

/// Answers each line of the text, which follows the header. `BadText` at the first byte with which no line goes on,
/// after the answers of the lines before; `Write` and `Memory`, after a beginning of the answers.
pub(crate) fn answer_lines<S: Answers, W: Write, H: Wait>(
    rt: &H,
    alloc: Global,
    session: &mut S,
    text: &[u8],
    writer: &mut W,
) -> Result<(), ReplayFault>
    requires { S.stands session.old }
    ensures { AnswersLines text.now (W.contents writer.old) (W.contents writer.new) result }
{
    let mut out = Vec::new(alloc);
    let mut refused = None;
    let mut names = Names::new(alloc);
    let mut line: u64 = 2;
    let mut rest = text;
    while !rest.is_empty() {
        match front_call(rest) {
            Ok((call, after)) => {
                answer_one(rt, alloc, session, &mut refused, &mut names, call, &mut out)?;
                line = line.saturating_add(1);
                rest = after;
                write_piece(writer, &mut out)?;
            }
            Err(bad) => return stop_at(writer, &out, line, column_of(rest, bad)),
        }
    }
    write_whole(writer, &out)
}
