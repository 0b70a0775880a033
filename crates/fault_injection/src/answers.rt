//! The texts of answers.

use std::fmt;
use std::fmt::Write;
use world::{Answer, StepError};

/// What a step answered, shown as a replay prints it, without its line feed.
#[derive(Clone, Copy, Drop)]
pub struct AnswerText(pub Result<Answer, StepError>);

impl fmt::Display for AnswerText {
    fn fmt<W: fmt::Write>(&self, f: &mut fmt::Formatter<W>) -> fmt::Result {
        match self.0 {
            Ok(Answer::Events { first, second }) => match second {
                None => write!(f, "{first}"),
                Some(second) => write!(f, "{first}; {second}"),
            },
            Ok(Answer::Quiet) => f.write_str("."),
            Ok(Answer::Wait) => f.write_str("wait"),
            Ok(Answer::Blocked) => f.write_str("blocked"),
            Ok(Answer::Idle) => f.write_str("idle"),
            Err(refusal) => write!(f, "refused E{}", refusal.number()),
        }
    }
}

impl AnswerText {
    /// Whether this is its text, with a line feed. It needs no memory.
    pub fn is(self, line: &str) -> bool {
        let mut left = Left(line);
        write!(left, "{self}\n").is_ok() && left.0.is_empty()
    }
}

/// What is left of a text that is compared piece by piece.
#[derive(Drop)]
struct Left<'a>(&'a str);

impl fmt::Write for Left<'_> {
    /// Takes the piece off the text, or fails where the text goes on otherwise.
    fn write_str(&mut self, piece: &str) -> fmt::Result {
        match self.0.strip_prefix(piece) {
            Some(left) => {
                self.0 = left;
                Ok(())
            }
            None => Err(fmt::Error),
        }
    }
}
