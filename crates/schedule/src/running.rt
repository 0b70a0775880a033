//! The lines of a schedule, stepped one after the other.

ghost use Rattle.std.specs.Prelude.{◌≡◌, ◌⊎◌, ◌++◌, [], false, IfOk, IfErr, IsTrue};
ghost use Rattle.world.specs.Steps.{fresh_world, is_supported};
ghost use Rattle.schedule_text.specs.declared.fault.ReplayFault.TheVariants.{BadConfig, Memory};
ghost use Rattle.schedule_text.specs.Grammar.{line_at};
ghost use Rattle.schedule.specs.Play.{point, PlaysAll, EndsLines};

use crate::held::Held;
use rcu_model::Refusal;
use schedule_text::{Counts, ReplayFault, print_answer, print_end};
use std::alloc::Global;
use world::{Answer, Config, World};

/// A world, and where its schedule stands.
#[derive(Drop)]
pub struct Running {
    /// The world after the lines so far.
    pub world: World,
    /// The number of the next line.
    pub line: u64,
    /// The bytes of a line that has not ended.
    pub held: Held,
}

impl Running {
    /// A fresh world, before its first line. `BadConfig` where the world does not support the config; `Memory`.
    pub fn new(alloc: Global, config: Config) -> Result<Running, ReplayFault>
        ensures ok { IfOk result (λ r. IsTrue (is_supported config) × (r.world ≡ fresh_world config) × (r.line ≡ 2) × (r.held ≡ [])) }
        ensures err { IfErr result (λ fault. ((fault ≡ BadConfig) × (is_supported config ≡ false)) ⊎ ((fault ≡ Memory) × IsTrue (is_supported config))) }
    {
        match World::new(alloc, config) {
            Ok(world) => Ok(Running {
                world,
                line: 2,
                held: Held::new(),
            }),
            Err(Refusal::Memory) => Err(ReplayFault::Memory),
            Err(_) => Err(ReplayFault::BadConfig),
        }
    }

    /// Answers each line that ends in the piece. `BadText` at the first byte with which no line goes on; `Memory`.
    pub fn feed(
        &mut self,
        alloc: Global,
        piece: &[u8],
        out: &mut Vec<u8>,
    ) -> Result<(), ReplayFault>
        ensures { line_at self.old.held ≡ Err [] → PlaysAll (point self.old.world self.old.line (self.old.held ++ piece.now) out.old.items) (point self.new.world self.new.line self.new.held out.new.items) result }
    {
        let mut rest = piece;
        let mut text = String::new(alloc);
        loop {
            match self.held.next_line(rest) {
                Ok(Some((line, after))) => {
                    match self.world.step(&line) {
                        // Most answers are this one, and it need not be moved.
                        Ok(Answer::Quiet) => print_answer(&Ok(Answer::Quiet), &mut text, out)?,
                        Err(Refusal::Memory) => return Err(ReplayFault::Memory),
                        answer => print_answer(&answer, &mut text, out)?,
                    }
                    self.line = self.line.saturating_add(1);
                    rest = after;
                }
                Ok(None) => return Ok(()),
                Err(column) => {
                    return Err(ReplayFault::BadText {
                        line: self.line,
                        column,
                    });
                }
            }
        }
    }

    /// Writes the end line at the end. `BadText` where a line has not ended, and `Memory`, write nothing.
    pub fn end(&self, alloc: Global, out: &mut Vec<u8>) -> Result<Counts, ReplayFault>
        ensures { EndsLines (point self.now.world self.now.line self.now.held out.old.items) out.new.items result }
    {
        if self.held.len() > 0 {
            return Err(ReplayFault::BadText {
                line: self.line,
                column: self.held.len() + 1,
            });
        }
        let counts = Counts::of(self.world.log());
        print_end(alloc, &counts, out)?;
        Ok(counts)
    }
}
