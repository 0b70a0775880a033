//! A judge of a text of answers, which can be asked at any moment.

ghost use Rattle.std.specs.Prelude.{◌≡◌, ◌++◌, ℕ, List, [], true};
ghost use Rattle.judging.specs.declared.text_judge.Finding.TheVariants.{Yes, Memory};
ghost use Rattle.judging.specs.Found.{IsFound, IsFoundAtEnd, WasFed, finding_of, found_along, is_final};

use crate::judging::Judging;
use rcu_judge::{Rule, Verdict};
use schedule_text::AnswersFault;
use std::alloc::Global;

/// What is found of a text of answers. All but `Yes` stand, whatever follows.
#[derive(Clone, Copy, Debug, PartialEq, Eq, Drop)]
pub enum Finding {
    /// Its lines tell a run of the abstract machine.
    Yes {
        /// How many events they tell.
        events: usize,
    },
    /// An event breaks its rule.
    No {
        /// The first such event, counted from 1.
        at: usize,
        /// The rule that it breaks.
        rule: Rule,
    },
    /// It is no text of answers, and the lines before the bad one tell a run. Lines and columns count from 1.
    BadText {
        /// The line that is none.
        line: u64,
        /// The first byte with which no line goes on, or the place after a line that has no end.
        column: usize,
    },
    /// The allocator refused, and the text was not judged to its end.
    Memory,
}

impl Finding {
    /// Whether it stands, whatever follows: all but `Yes` do.
    pub fn is_final(&self) -> bool
        ensures { result ≡ is_final self.now }
    {
        match self {
            Finding::Yes { .. } => false,
            Finding::No { .. } | Finding::BadText { .. } | Finding::Memory => true,
        }
    }
}

/// The finding of a fault.
fn finding_of(fault: AnswersFault) -> Finding
    ensures { result ≡ finding_of fault }
{
    match fault {
        AnswersFault::BadText { line, column } => Finding::BadText { line, column },
        AnswersFault::Memory => Finding::Memory,
    }
}

/// The finding after a piece that came to this, with this many events.
fn found_along(followed: Result<Verdict, AnswersFault>, events: usize) -> Finding
    ensures { result ≡ found_along followed events }
{
    match followed {
        Ok(Verdict::Yes) => Finding::Yes { events },
        Ok(Verdict::No { at, rule }) => Finding::No { at, rule },
        Err(fault) => finding_of(fault),
    }
}

/// A judge of a text of answers that comes in pieces: whether the log that it tells is a run of the abstract machine,
/// the first event that breaks its rule, or why it is no such text. It can be asked at any moment. The first finding
/// other than `Yes` stands, and what comes after it is not looked at. It keeps what `Judging` keeps.
#[derive(Drop)]
pub struct TextJudge {
    judging: Judging,
    found: Finding,
}

impl TextJudge {
    /// A judge that was fed nothing. It takes no memory yet, so it has found a run of no events.
    pub fn new(alloc: Global) -> Self
        ensures fed { WasFed result [] }
        ensures found { result.found ≡ Yes 0 }
    {
        TextJudge {
            judging: Judging::new(alloc),
            found: Finding::Yes { events: 0 },
        }
    }

    /// Takes the next piece of the text, of any length.
    pub fn feed(&mut self, piece: &[u8])
        ensures fed { (fed : List ℕ) → WasFed self.old fed → WasFed self.new (fed ++ piece.now) }
        ensures stands { is_final self.old.found ≡ true → self.new ≡ self.old }
    {
        if self.found.is_final() {
            return;
        }
        let followed = self.judging.follow(piece);
        self.found = found_along(followed, self.judging.taken());
    }

    /// What is found of the text so far: less than a line may stand at its end.
    pub fn found(&self) -> Finding
        ensures found { (fed : List ℕ) → WasFed self.now fed → IsFound fed result }
        ensures same { result ≡ self.now.found }
    {
        self.found
    }

    /// What is found of the text if it ends here: a line that has no end is a bad text. The judge is as it was, and
    /// more may follow all the same. It takes no memory, so it finds `Memory` only where that stands already.
    pub fn found_at_end(&self) -> Finding
        ensures found { (fed : List ℕ) → WasFed self.now fed → IsFoundAtEnd fed result }
        ensures stands { is_final self.now.found ≡ true → result ≡ self.now.found }
        ensures memory { (fed : List ℕ) → WasFed self.now fed → result ≡ Memory → self.now.found ≡ Memory }
    {
        if self.found.is_final() {
            return self.found;
        }
        match self.judging.finish() {
            Ok(_) => self.found,
            Err(unended) => finding_of(unended),
        }
    }
}
