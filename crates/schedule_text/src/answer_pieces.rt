//! Lines of answers that come in pieces, read as they come.

ghost use Rattle.std.specs.Prelude.{◌++◌, ℕ, List, []};
ghost use Rattle.rcu_model.specs.declared.event.Event.{Event};
ghost use Rattle.schedule_text.specs.AnswerPieces.{HasRead, Takes, EndsAnswers};

use crate::answer_reading::front_answers;
use crate::fault::AnswersFault;
use rcu_model::Event;
use std::alloc::Global;

/// A reader of lines of answers that come in pieces. It keeps less than a line of text.
#[derive(Drop)]
pub struct AnswerReader {
    alloc: Global,
    // The number of the next line.
    line: u64,
    // What has come of it.
    held: Vec<u8>,
}

impl AnswerReader {
    /// Nothing has come. It takes no memory yet.
    pub fn new(alloc: Global) -> Self
        ensures { HasRead result [] [] }
    {
        AnswerReader {
            alloc,
            line: 1,
            held: Vec::new(alloc),
        }
    }

    /// Takes the next piece, and puts the events of each line that ends in it at the end of the log.
    ///
    /// # Errors
    /// `BadText` at the first byte with which no line of answers goes on: the log has the events of the lines before
    /// it. `Memory` where memory was refused. After an error the reader is of no more use.
    pub fn feed(&mut self, piece: &[u8], log: &mut Vec<Event>) -> Result<(), AnswersFault>
        ensures { (fed : List ℕ) (earlier : List Event) → HasRead self.old fed (earlier ++ log.old.items) → Takes self.new (fed ++ piece.now) (earlier ++ log.new.items) result }
    {
        self.held.extend_from_slice(piece)?;
        let rest = front_answers(&self.held, &mut self.line, log)?;
        let mut held = Vec::new(self.alloc);
        held.extend_from_slice(rest)?;
        self.held = held;
        Ok(())
    }

    /// Ends the input.
    ///
    /// # Errors
    /// `BadText` after a line that has no end.
    pub fn finish(&self) -> Result<(), AnswersFault>
        ensures { (fed : List ℕ) (log : List Event) → HasRead self.now fed log → EndsAnswers fed log result }
    {
        if self.held.is_empty() {
            return Ok(());
        }
        Err(AnswersFault::BadText {
            line: self.line,
            column: self.held.len() + 1,
        })
    }
}
