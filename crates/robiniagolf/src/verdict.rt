//! What C hears of a text.

ghost use Rattle.std.specs.Prelude.{◌≡◌};
ghost use Rattle.robiniagolf.specs.Verdicts.{answer_of, no_judge, number_of, verdict_of};

use judging::Finding;
use rcu_judge::Rule;

/// `struct robiniagolf_verdict`.
#[repr(C)]
#[derive(Clone, Copy, Drop)]
pub struct Verdict {
    /// 0 yes, 1 no, 2 bad text, 3 memory, 4 the handle keeps nothing.
    pub answer: u32,
    /// The rule that a wrong event breaks, from 3 to 8; else 0.
    pub rule: u32,
    /// How many events there were, for yes; the first wrong one, counted from 1, for no; else 0.
    pub event: usize,
    /// The line of a bad text, counted from 1; else 0.
    pub line: u64,
    /// The column of a bad text, counted from 1; else 0.
    pub column: usize,
}

impl Verdict {
    /// That of a handle which keeps nothing.
    pub fn no_judge() -> Verdict
        ensures { result ≡ no_judge }
    {
        Verdict {
            answer: 4,
            rule: 0,
            event: 0,
            line: 0,
            column: 0,
        }
    }

    /// That of what was found.
    pub fn of(found: Finding) -> Verdict
        ensures { result ≡ verdict_of found }
    {
        let nothing = Verdict {
            answer: answer_of(found),
            ..Verdict::no_judge()
        };
        match found {
            Finding::Yes { events } => Verdict {
                event: events,
                ..nothing
            },
            Finding::No { at, rule } => Verdict {
                event: at,
                rule: number_of(rule),
                ..nothing
            },
            Finding::BadText { line, column } => Verdict {
                line,
                column,
                ..nothing
            },
            Finding::Memory => nothing,
        }
    }
}

/// The number by which C knows what was found.
pub fn answer_of(found: Finding) -> u32
    ensures { result ≡ answer_of found }
{
    match found {
        Finding::Yes { .. } => 0,
        Finding::No { .. } => 1,
        Finding::BadText { .. } => 2,
        Finding::Memory => 3,
    }
}

/// The number in the rule's name, `D3` to `D8`.
fn number_of(rule: Rule) -> u32
    ensures { result ≡ number_of rule }
{
    match rule {
        Rule::Section => 3,
        Rule::Reading => 4,
        Rule::Publishing => 5,
        Rule::Retirement => 6,
        Rule::Reclaiming => 7,
        Rule::Asking => 8,
    }
}
