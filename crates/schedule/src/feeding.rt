//! A schedule that comes in pieces, replayed as it comes.

ghost use Rattle.std.specs.Prelude.{◌≡◌, ℕ, List, [], IfErr, OnOk};
ghost use Rattle.schedule.specs.Safety.{AppendsSafely};
ghost use Rattle.schedule.specs.Stream.{Progress, Header, Failed, progress_of, Stands, Feeds, Finishes, StaysFailed, IsSound};

use crate::held::Held;
use crate::laws::each_text_reclaims_safely;
use crate::running::Running;
use crate::stage::Stage;
use schedule_text::{Counts, ReplayFault};
use std::alloc::Global;
use std::marker::Model;

/// A replay of a schedule that comes in pieces. It keeps a world and less than a line of text.
#[derive(Drop)]
pub struct Replay {
    alloc: Global,
    stage: Stage,
}

impl Model for Replay {
    ghost Value = { Progress };

    ghost view = { λ r. progress_of r.stage };
}

impl Replay {
    /// Nothing has come.
    pub fn new(alloc: Global) -> Replay
        ensures new { result ≡ Header [] }
        ensures stands { Stands result [] [] }
    {
        Replay {
            alloc,
            stage: Stage::Header(Held::new()),
        }
    }

    /// Takes the next piece, and writes the answer of each line that ends in it.
    fn go_on(&mut self, piece: &[u8], out: &mut Vec<u8>) -> Result<(), ReplayFault>
        ensures feeds { Feeds self.old self.new piece.now out.old.items out.new.items result }
        ensures sound { OnOk result (IsSound self.new) }
        ensures failed { StaysFailed self.old out.old.items out.new.items result }
    {
        match &mut self.stage {
            Stage::Header(held) => {
                match held.next_header(piece) {
                    Ok(None) => Ok(()),
                    Ok(Some((config, rest))) => {
                        let mut running = Running::new(self.alloc, config)?;
                        let fed = running.feed(self.alloc, rest, out);
                        self.stage = Stage::Lines(running);
                        fed
                    }
                    Err(column) => Err(ReplayFault::BadText { line: 1, column }),
                }
            }
            Stage::Lines(running) => running.feed(self.alloc, piece, out),
            Stage::Failed(fault) => Err(*fault),
        }
    }

    /// Takes the next piece, and writes the answer of each line that ends in it at the end of `out`: a piece more of
    /// what the text prints. `BadText` at the first byte with which no line of its place goes on, `BadConfig` and
    /// `Memory`. After a fault each call answers the same fault, and writes nothing.
    pub fn feed(&mut self, piece: &[u8], out: &mut Vec<u8>) -> Result<(), ReplayFault>
        ensures feeds { Feeds self.old self.new piece.now out.old.items out.new.items result }
        ensures sound { OnOk result (IsSound self.new) }
        // What was printed so far tells one safe log.
        ensures safe { (fed earlier : List ℕ) → Stands self.old fed earlier → AppendsSafely earlier out.old.items out.new.items result }
        ensures err { IfErr result (λ fault. self.new ≡ Failed fault) }
        ensures failed { StaysFailed self.old out.old.items out.new.items result }
    {
        each_text_reclaims_safely();
        let result = self.go_on(piece, out);
        if let Err(fault) = result {
            self.stage = Stage::Failed(fault);
        }
        result
    }

    /// What the end of the input leads to.
    fn end(&self, out: &mut Vec<u8>) -> Result<Counts, ReplayFault>
        ensures finishes { Finishes self.now out.old.items out.new.items result }
        ensures failed { StaysFailed self.now out.old.items out.new.items result }
    {
        match &self.stage {
            Stage::Header(held) => Err(ReplayFault::BadText {
                line: 1,
                column: held.len() + 1,
            }),
            Stage::Lines(running) => running.end(self.alloc, out),
            Stage::Failed(fault) => Err(*fault),
        }
    }

    /// Ends the input: writes the end line at the end of `out`, and answers its counts. `BadText` after a line that has
    /// not ended, and `Memory`. After a fault each call answers the same fault, and writes nothing.
    pub fn finish(&mut self, out: &mut Vec<u8>) -> Result<Counts, ReplayFault>
        ensures finishes { Finishes self.old out.old.items out.new.items result }
        // What was printed tells one safe log.
        ensures safe { (fed earlier : List ℕ) → Stands self.old fed earlier → AppendsSafely earlier out.old.items out.new.items result }
        ensures ok { OnOk result (self.new ≡ self.old) }
        ensures err { IfErr result (λ fault. self.new ≡ Failed fault) }
        ensures failed { StaysFailed self.old out.old.items out.new.items result }
    {
        each_text_reclaims_safely();
        let result = self.end(out);
        if let Err(fault) = result {
            self.stage = Stage::Failed(fault);
        }
        result
    }
}
