//! Lines of answers that come in pieces, judged as they come.

ghost use Rattle.std.specs.Prelude.{◌≡◌, ◌++◌, ℕ, List, length, OnOk, IfErr};
ghost use Rattle.rcu_model.specs.declared.event.Event.{Event};
ghost use Rattle.rcu_model.specs.Machine.{IsRun};
ghost use Rattle.rcu_judge.specs.Judge.{HasTaken};
ghost use Rattle.schedule_text.specs.declared.fault.AnswersFault.TheVariants.{Memory};
ghost use Rattle.judging.specs.Judging.{HasBegun, HasJudged, JudgesOn, JudgesAlong, Ends, so_far};

use rcu_judge::{Judge, Verdict};
use rcu_model::Event;
use schedule_text::{AnswerReader, AnswersFault};
use std::alloc::Global;

/// A judge of the log that lines of answers tell, which come in pieces. It keeps what is present in that log, the
/// events of a piece, and less than a line of text.
#[derive(Drop)]
pub struct Judging {
    answers: AnswerReader,
    // The events of the last piece.
    events: Vec<Event>,
    judge: Judge,
}

/// The verdict after a piece that came to this: a wrong event counts before a bad text that follows it.
fn so_far(fed: Result<(), AnswersFault>, verdict: Verdict) -> Result<Verdict, AnswersFault>
    ensures { result ≡ so_far fed verdict }
{
    match fed {
        Ok(()) => Ok(verdict),
        Err(AnswersFault::Memory) => Err(AnswersFault::Memory),
        Err(AnswersFault::BadText { line, column }) => match verdict {
            Verdict::Yes => Err(AnswersFault::BadText { line, column }),
            Verdict::No { at, rule } => Ok(Verdict::No { at, rule }),
        },
    }
}

/// The judge takes the events. `Memory`, also where there are more events than can be counted.
fn take_all(judge: &mut Judge, events: &[Event]) -> Result<(), AnswersFault>
    ensures taken { OnOk result ((log : List Event) → HasTaken judge.old log → HasTaken judge.new (log ++ events.now)) }
    ensures memory { IfErr result (λ fault. fault ≡ Memory) }
{
    for event in events {
        if judge.take(event).is_err() {
            return Err(AnswersFault::Memory);
        }
    }
    Ok(())
}

impl Judging {
    /// Nothing has come. It takes no memory yet.
    pub fn new(alloc: Global) -> Self
        ensures { HasBegun result }
    {
        Judging {
            answers: AnswerReader::new(alloc),
            events: Vec::new(alloc),
            judge: Judge::new(alloc),
        }
    }

    /// Takes the next piece, and judges the events of each line that ends in it. `BadText` at the first byte with which
    /// no line of answers goes on, and `Memory`. After a fault it is of no more use.
    pub fn feed(&mut self, piece: &[u8]) -> Result<(), AnswersFault>
        ensures { (fed : List ℕ) → HasJudged self.old fed → JudgesOn self.new (fed ++ piece.now) result }
    {
        self.events.clear();
        let fed = self.answers.feed(piece, &mut self.events);
        take_all(&mut self.judge, &self.events)?;
        fed
    }

    /// Takes the next piece like `feed`, and answers the verdict so far: `No` once an event was wrong, whatever follows
    /// that event. `BadText` where no event before it was wrong, and `Memory`. After a fault or `No` it is of no more
    /// use.
    pub fn follow(&mut self, piece: &[u8]) -> Result<Verdict, AnswersFault>
        ensures { (fed : List ℕ) → HasJudged self.old fed → JudgesAlong self.new (fed ++ piece.now) result }
    {
        let fed = self.feed(piece);
        so_far(fed, self.judge.verdict())
    }

    /// How many events there were, where they are a run.
    pub fn taken(&self) -> usize
        ensures { (fed : List ℕ) (judged : HasJudged self.now fed) → IsRun judged.log → result ≡ length judged.log }
    {
        self.judge.taken()
    }

    /// Ends the input: the verdict, and how many events there were where they are a run. `BadText` after a line that
    /// has no end.
    pub fn finish(&self) -> Result<(Verdict, usize), AnswersFault>
        ensures { (fed : List ℕ) (judged : HasJudged self.now fed) → Ends fed judged.log result }
    {
        self.answers.finish()?;
        Ok((self.judge.verdict(), self.judge.taken()))
    }
}
