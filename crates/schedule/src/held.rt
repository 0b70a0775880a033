//! What has come of a header or a line that has not ended.

ghost use Rattle.std.specs.Prelude.{◌≡◌, ◌<◌, ℕ, List, [], length, take, IfOk, IfSome};
ghost use Rattle.std.specs.Borrow.{Bor};
ghost use Rattle.world_state.specs.declared.line.Line.{Line};
ghost use Rattle.schedule_text.specs.Grammar.{header_at, line_at};
ghost use Rattle.schedule.specs.Next.{Next, IsIncremental};
ghost use Rattle.schedule_text.specs.Reading.{Reading, Gives};
ghost use Rattle.world_state.specs.declared.config.Config.{Config};

use schedule_text::{column_of, front_go_on, front_header, front_line};
use std::marker::Model;
use world::{Config, Line};

/// As many bytes as the longest header has. Lines are shorter.
const LONGEST: usize = 56;

/// What may stand first in a text.
trait Front: Copy {
    /// How it is read.
    ghost read: { List ℕ → Reading Self };

    /// What stands first in the text, and what comes after it; or the bytes from the first bad one on, of which there
    /// are none where the text may go on.
    fn front(text: &[u8]) -> Result<(Self, &[u8]), &[u8]>
        ensures { Gives (λ x. x) result (read text.now) };
}

impl Front for Config {
    ghost read = { header_at };

    fn front(text: &[u8]) -> Result<(Config, &[u8]), &[u8]> {
        front_header(text)
    }
}

impl Front for Line {
    ghost read = { line_at };

    // As `front_line` itself.
    #[inline(always)]
    fn front(text: &[u8]) -> Result<(Line, &[u8]), &[u8]> {
        front_line(text)
    }
}

/// The bytes of a header or a line that has not ended.
#[derive(Drop)]
pub struct Held {
    bytes: [u8; LONGEST],
    len: usize,
}

impl Model for Held {
    ghost Value = { List ℕ };

    ghost view = { λ h. take h.len h.bytes };

    ghost invariant = { λ h. h.len < 56 };
}

impl Held {
    /// No bytes held: a header or a line begins with the next byte.
    pub fn new() -> Held
        ensures { result ≡ [] }
    {
        Held {
            bytes: [0; LONGEST],
            len: 0,
        }
    }

    /// How many bytes are held.
    pub fn len(&self) -> usize
        ensures length { result ≡ length self.now }
        ensures short { result < 56 }
    {
        self.len
    }

    /// The same as `next`, where something is held: byte by byte, so that no more than one header or line is kept.
    // Only a line that a piece cuts in two comes here.
    #[cold]
    #[inline(never)]
    fn cut<'a, T: Front>(&mut self, text: &'a [u8]) -> Result<Option<(T, &'a [u8])>, usize>
        requires { IsIncremental T.read }
        ensures next { T.read self.old ≡ Err [] → Next T.read self.old text.now self.new result }
        ensures shrinks { IfOk result (λ next. IfSome next (λ x. length x.1.now < length text.now)) }
    {
        let mut rest = text;
        while let [byte, after @ ..] = rest {
            self.bytes[self.len] = *byte;
            let held = &self.bytes[..self.len + 1];
            match T::front(held) {
                Ok(found) => {
                    self.len = 0;
                    return Ok(Some((found.0, after)));
                }
                Err([]) => self.len += 1,
                Err(bad) => return Err(column_of(held, bad)),
            }
            rest = after;
        }
        Ok(None)
    }

    /// What stands first in what is held and the text, and what follows it, if it is whole; else the text is held. Or
    /// the column of a byte with which it does not go on.
    // Out of the short way of `next_line`.
    #[inline(never)]
    fn next<'a, T: Front>(&mut self, text: &'a [u8]) -> Result<Option<(T, &'a [u8])>, usize>
        requires { IsIncremental T.read }
        ensures next { T.read self.old ≡ Err [] → Next T.read self.old text.now self.new result }
        ensures shrinks { IfOk result (λ next. IfSome next (λ x. length x.1.now < length text.now)) }
    {
        if self.len > 0 {
            return self.cut(text);
        }
        match T::front(text) {
            Ok(next) => Ok(Some(next)),
            Err([]) => {
                self.bytes[..text.len()].copy_from_slice(text);
                self.len = text.len();
                Ok(None)
            }
            Err(bad) => Err(column_of(text, bad)),
        }
    }

    /// The header that stands first in what is held and the text, and what follows it, if it is whole; else the text is
    /// held. Or the column of a byte with which no header goes on.
    #[tactic(auto, using(crate::proofs::Short::header_incremental))]
    pub fn next_header<'a>(&mut self, text: &'a [u8]) -> Result<Option<(Config, &'a [u8])>, usize>
        ensures { header_at self.old ≡ Err [] → Next header_at self.old text.now self.new result }
    {
        self.next(text)
    }

    /// The line that stands first in what is held and the text, and what follows it, if it is whole; else the text is
    /// held. Or the column of a byte with which no line goes on.
    // One call for each line of a schedule, whose answer then stays in registers.
    #[inline(always)]
    #[tactic(auto, using(crate::proofs::Short::line_incremental))]
    pub fn next_line<'a>(&mut self, text: &'a [u8]) -> Result<Option<(Line, &'a [u8])>, usize>
        ensures next { line_at self.old ≡ Err [] → Next line_at self.old text.now self.new result }
        ensures shrinks { IfOk result (λ next. IfSome next (λ x. length x.1.now < length text.now)) }
    {
        // The short way, which most lines take.
        if self.len == 0
            && let Some(found) = front_go_on(text)
        {
            return Ok(Some(found));
        }
        // Taken apart, so that what the short way found stays in registers.
        let next = self.next(text)?;
        Ok(next)
    }
}
