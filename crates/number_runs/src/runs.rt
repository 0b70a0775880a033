//! A set of numbers, kept as its runs of consecutive numbers.

ghost use Rattle.std.specs.Prelude.{◌≡◌, ◌+◌, ◌<◌, ◌≤◌, ◌∷◌, ◌⊎◌, ◌↔◌, ℕ, [], Some, IsTrue, IfOk, OnOk, OnErr};
ghost use Rattle.std.specs.Option.{unwrap_or};
ghost use Rattle.number_runs.specs.Runs.{last_from, Has, AreRuns, AreBelow, Joins, JoinsUnlessThere, FindsRunBefore, Reaches, begins_at};

use std::alloc::{AllocError, Global};
use std::collections::BTreeMap;
use std::marker::Model;

/// A set of numbers. Memory is linear in its runs, the longest stretches of consecutive numbers, and so next to nothing
/// where numbers count up, in a few threads of order. The number after the greatest takes constant time, and any other
/// one time that is logarithmic in the number of runs.
#[derive(Drop)]
pub struct NumberRuns {
    // The first number and the last of the run of the greatest numbers: those that count up join it.
    greatest: Option<(u64, u64)>,
    // The last number of each other run, by its first.
    lower: BTreeMap<u64, u64>,
}

impl Model for NumberRuns {
    ghost use Rattle.std.specs.Prelude.{List, ℕ};
    ghost use Rattle.number_runs.specs.Runs.{AreRuns, AreBelow, all_runs};

    ghost Value = { List (ℕ × ℕ) };

    ghost view = { λ r. all_runs r.greatest r.lower.entries };

    ghost invariant = { λ r. AreRuns (all_runs r.greatest r.lower.entries) × AreBelow r.greatest r.lower.entries };
}

impl NumberRuns {
    /// No number.
    pub fn new(alloc: Global) -> Self
        ensures { result ≡ [] }
    {
        NumberRuns {
            greatest: None,
            lower: BTreeMap::new(alloc),
        }
    }

    /// Puts a number into the set: whether it was not there.
    ///
    /// # Errors
    /// `AllocError` where memory was refused; then the set stays as it was.
    pub fn insert(&mut self, number: u64) -> Result<bool, AllocError>
        ensures new { IfOk result (λ new. IsTrue new ↔ ¬ Has self.old number) }
        ensures put { OnOk result ((n : ℕ) → Has self.new n ↔ ((number ≡ n) ⊎ Has self.old n)) }
        ensures joined { OnOk result (AreRuns self.new) }
        ensures refused { OnErr result (self.new ≡ self.old) }
    {
        let Some(greatest) = self.greatest else {
            self.greatest = Some((number, number));
            return Ok(true);
        };
        if number > greatest.1 {
            self.greatest = Some(join_above(&mut self.lower, greatest, number)?);
            return Ok(true);
        }
        let Some(joined) = join_below(&mut self.lower, greatest, number)? else {
            return Ok(false);
        };
        self.greatest = Some(joined);
        Ok(true)
    }

    /// Whether the number is in the set.
    pub fn contains(&self, number: u64) -> bool
        ensures { IsTrue result ↔ Has self.now number }
    {
        let Some((least, most)) = self.greatest else {
            return false;
        };
        if number >= least {
            return number <= most;
        }
        reaches(run_before(&self.lower, number), number)
    }
}

// Puts a number above the run of the greatest ones: that run then.
fn join_above(
    lower: &mut BTreeMap<u64, u64>,
    greatest: (u64, u64),
    number: u64,
) -> Result<(u64, u64), AllocError>
    requires runs { AreRuns (greatest ∷ lower.old.entries) × AreBelow (Some greatest) lower.old.entries }
    requires above { greatest.1 < number }
    ensures joined { IfOk result (λ run. Joins greatest lower.old.entries run lower.new.entries number) }
    ensures refused { OnErr result (lower.new.entries ≡ lower.old.entries) }
{
    let first = first_joined(Some(greatest), number);
    if first == number {
        lower.insert(greatest.0, greatest.1)?;
    }
    Ok((first, number))
}

// Puts a number that is not above the run of the greatest ones: that run then, or nothing where the number was there.
fn join_below(
    lower: &mut BTreeMap<u64, u64>,
    greatest: (u64, u64),
    number: u64,
) -> Result<Option<(u64, u64)>, AllocError>
    requires runs { AreRuns (greatest ∷ lower.old.entries) × AreBelow (Some greatest) lower.old.entries }
    requires not_above { number ≤ greatest.1 }
    ensures joined { IfOk result (JoinsUnlessThere greatest lower.old.entries lower.new.entries number) }
    ensures refused { OnErr result (lower.new.entries ≡ lower.old.entries) }
{
    if number >= greatest.0 {
        return Ok(None);
    }
    let before = run_before(lower, number);
    if reaches(before, number) {
        return Ok(None);
    }
    let first = first_joined(before, number);
    if number + 1 == greatest.0 {
        lower.remove(&first);
        return Ok(Some((first, greatest.1)));
    }
    let last = last_joined(lower, number);
    lower.insert(first, last)?;
    if last == number {
        return Ok(Some(greatest));
    }
    lower.remove(&(number + 1));
    Ok(Some(greatest))
}

// The last run that begins at the number or before it: its first number and its last.
fn run_before(lower: &BTreeMap<u64, u64>, number: u64) -> Option<(u64, u64)>
    ensures { FindsRunBefore lower.now.entries number result }
{
    match lower.range(..=number).next_back() {
        Some((first, last)) => Some((*first, *last)),
        None => None,
    }
}

// Whether the run reaches the number, where there is one.
fn reaches(run: Option<(u64, u64)>, number: u64) -> bool
    ensures { IsTrue result ↔ Reaches run number }
{
    match run {
        Some((_, last)) => number <= last,
        None => false,
    }
}

// Where the run begins that a number joins, or makes: the run before it ends below the number.
fn first_joined(before: Option<(u64, u64)>, number: u64) -> u64
    requires { ¬ Reaches before number }
    ensures { result ≡ begins_at before number }
{
    match before {
        Some((first, last)) if last + 1 == number => first,
        _ => number,
    }
}

// Where it ends.
fn last_joined(lower: &BTreeMap<u64, u64>, number: u64) -> u64
    requires { AreRuns lower.now.entries }
    ensures { result ≡ unwrap_or (last_from lower.now.entries (number + 1)) number }
{
    let Some(next) = number.checked_add(1) else {
        return number;
    };
    match lower.get(&next) {
        Some(last) => *last,
        None => number,
    }
}
