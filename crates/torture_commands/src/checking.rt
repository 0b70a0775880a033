//! Logs of answers, judged.

ghost use Rattle.std.specs.Prelude.{◌≡◌, ◌↔◌, ℕ, List, Some, IfOk, IfErr};
ghost use Rattle.rcu_judge.specs.declared.verdict.Verdict.TheVariants.{Yes};
ghost use Rattle.rcu_model.specs.Machine.{IsRun};
ghost use Rattle.rcu_judge.specs.Verdict.{Judges};
ghost use Rattle.schedule_text.specs.declared.fault.ReplayFault.TheVariants.{Memory};
ghost use Rattle.judging.specs.Judging.{HasJudged};
ghost use Rattle.torture_commands.specs.Checking.{verdict_line, Prints, Closes, Checks, ChecksAlong};

use judging::Judging;
use rcu_judge::{LogFault, Verdict, check_log};
use rcu_model::Event;
use schedule::{PIECE, ReplayFault, write_whole};
use std::alloc::Global;
use std::fmt;
use std::io::{Read, Write};

/// What the log is. `Memory`.
pub fn judge(alloc: Global, log: &[Event]) -> Result<Verdict, ReplayFault>
    ensures judged { IfOk result (λ verdict. Judges verdict log.now) }
    ensures exactly { IfOk result (λ verdict. (verdict ≡ Yes) ↔ IsRun log.now) }
    ensures memory { IfErr result (λ fault. fault ≡ Memory) }
{
    match check_log(alloc, log) {
        Ok(verdict) => Ok(verdict),
        Err(LogFault::Memory) => Err(ReplayFault::Memory),
    }
}

/// What is printed of a log: the verdict, and how many events it has.
#[derive(Clone, Copy, Drop)]
struct VerdictLine {
    verdict: Verdict,
    events: usize,
}

impl fmt::Display for VerdictLine {
    ghost output = { λ line. Some (verdict_line line.verdict line.events) };

    fn fmt<W: fmt::Write>(&self, f: &mut fmt::Formatter<W>) -> fmt::Result {
        match self.verdict {
            Verdict::Yes => writeln!(f, "yes events={}", self.events),
            Verdict::No { at, rule } => writeln!(f, "no event={at} rule={rule}"),
        }
    }
}

/// Writes the line of a verdict. `Memory` writes nothing, and `Write` a beginning of that line.
fn tell<W: Write>(
    alloc: Global,
    verdict: Verdict,
    events: usize,
    writer: &mut W,
) -> Result<Verdict, ReplayFault>
    ensures { Prints verdict events (W.contents writer.old) (W.contents writer.new) result }
{
    let line = VerdictLine { verdict, events }.to_string(alloc)?;
    write_whole(writer, line.as_bytes())?;
    Ok(verdict)
}

/// Ends the input, and writes the line of the verdict.
fn close<W: Write>(alloc: Global, judging: &Judging, writer: &mut W) -> Result<Verdict, ReplayFault>
    ensures { (fed : List ℕ) (judged : HasJudged judging.now fed) → Closes fed judged.log (W.contents writer.old) (W.contents writer.new) result }
{
    let (verdict, events) = judging.finish()?;
    tell(alloc, verdict, events, writer)
}

/// Reads lines of answers to their end in pieces, judges the log that they tell as they come, and writes one line:
/// whether it is a run of the abstract machine, or else the first event that breaks its rule. `BadText`, `Read` and
/// `Memory` write nothing, and `Write` a beginning of that line. Nothing is read after a fault.
pub fn check<R: Read, W: Write>(
    alloc: Global,
    reader: &mut R,
    writer: &mut W,
) -> Result<Verdict, ReplayFault>
    ensures { Checks (R.remaining reader.old) (R.remaining reader.new) (W.contents writer.old) (W.contents writer.new) result }
{
    let mut judging = Judging::new(alloc);
    let mut buffer = [0u8; PIECE];
    // The language wants a bound for each loop. No input has that many pieces.
    for _ in 0..u64::MAX {
        match reader.read(&mut buffer) {
            Ok(0) => return close(alloc, &judging, writer),
            Ok(len) => judging.feed(&buffer[..len])?,
            Err(_) => return Err(ReplayFault::Read),
        }
    }
    Err(ReplayFault::Read)
}

/// Reads lines of answers as `check` does, up to the first wrong event: its verdict is written at once, and nothing
/// more is read. So what follows that event in its piece, and after it, is not looked at. A text with no wrong event
/// has the answers that it has of `check`.
pub fn follow<R: Read, W: Write>(
    alloc: Global,
    reader: &mut R,
    writer: &mut W,
) -> Result<Verdict, ReplayFault>
    ensures { ChecksAlong (R.remaining reader.old) (R.remaining reader.new) (W.contents writer.old) (W.contents writer.new) result }
{
    let mut judging = Judging::new(alloc);
    let mut buffer = [0u8; PIECE];
    // The language wants a bound for each loop. No input has that many pieces.
    for _ in 0..u64::MAX {
        match reader.read(&mut buffer) {
            Ok(0) => return close(alloc, &judging, writer),
            Ok(len) => {
                let verdict = judging.follow(&buffer[..len])?;
                if let Verdict::No { .. } = verdict {
                    return tell(alloc, verdict, 0, writer);
                }
            }
            Err(_) => return Err(ReplayFault::Read),
        }
    }
    Err(ReplayFault::Read)
}
