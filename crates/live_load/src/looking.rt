//! What a reader of a list or a table does: it looks one key up that is there all along, and goes through all keys.

ghost use Rattle.std.specs.Prelude.{◌≡◌, ◌≤◌, ◌<◌, IfOk};

use crate::maps::{STAYING, View, look, walk};
use crate::threads::Shared;
use crate::waiting::Mark;
use crate::watch::Watch;
use gp_memb::GracePlan;
use rcu_hash::{Handle, Reader, Site, Tabled};
use rcu_model::Refusal;
use std::sync::Wait;
use std::time::Clock;

/// A bit for each key that stays.
const ALL: u64 = 0xffff;

/// Which keys a walk has met, of those that stay, by a bit each.
#[derive(Clone, Copy, Drop)]
struct Met {
    once: u64,
    twice: u64,
}

impl Met {
    fn meets(&mut self, key: u64) {
        if key < STAYING {
            let bit = 1u64 << key;
            self.twice |= self.once & bit;
            self.once |= bit;
        }
    }

    /// Whether it met each of them once.
    fn is_whole(&self) -> bool {
        self.once == ALL && self.twice == 0
    }
}

/// What a reader looks up, and the value that it found last.
#[derive(Clone, Copy, Drop)]
struct Looked {
    key: u64,
    value: u64,
}

/// One section, which looks the key up. Whether it is there, with a value no less than the one before.
fn one_look<P: GracePlan, B: Site>(
    reader: &mut Reader<P, Tabled, B>,
    view: &View<B>,
    mark: &Mark,
    number: u64,
    looked: &mut Looked,
) -> Result<bool, Refusal> {
    let mut section = reader.section()?;
    mark.begin(number);
    let found = look(&mut section, view, looked.key);
    mark.end(number);
    let Some(value) = found else {
        return Ok(false);
    };
    let is_later = value >= looked.value;
    looked.value = value;
    Ok(is_later)
}

/// One section, which goes through all keys. Whether it met each that stays once.
fn one_walk<P: GracePlan, B: Site>(
    reader: &mut Reader<P, Tabled, B>,
    view: &View<B>,
    mark: &Mark,
    number: u64,
) -> Result<bool, Refusal> {
    let mut met = Met { once: 0, twice: 0 };
    let mut visit = |key: u64, _value: u64| met.meets(key);
    let mut section = reader.section()?;
    mark.begin(number);
    walk(&mut section, view, &mut visit);
    mark.end(number);
    Ok(met.is_whole())
}

/// Looks and walks by turns until all are done or the time is over; in the quiescent-state flavour the reader announces
/// after each. How many were wrong.
fn sections<P: GracePlan + Drop, B: Site, R: Clock, W: Watch>(
    rt: &R,
    shared: &Shared<'_, '_, P, Tabled, B, W>,
    reader: &mut Reader<P, Tabled, B>,
    view: &View<B>,
    mark: &Mark,
    key: u64,
) -> Result<u64, Refusal>
    ensures { IfOk result (λ wrong. wrong ≤ shared.now.load.rounds) }
{
    let mut looked = Looked { key, value: 0 };
    let mut wrong = 0;
    for number in 0..shared.load.rounds {
        if shared.deadline.is_over(rt) {
            return Ok(wrong);
        }
        let name = u64::from(number) + 1;
        let is_right = if number % 2 == 0 {
            one_look(reader, view, mark, name, &mut looked)?
        } else {
            one_walk(reader, view, mark, name)?
        };
        if !is_right {
            wrong += 1;
        }
        if P::QSBR {
            reader.quiescent()?;
        }
    }
    Ok(wrong)
}

/// What a reader does: it registers, goes online in the quiescent-state flavour, makes its sections and unregisters.
/// How many of them found what they should not.
pub(crate) fn looks<P: GracePlan + Drop, B: Site, R: Wait + Clock, W: Watch>(
    rt: &R,
    shared: &Shared<'_, '_, P, Tabled, B, W>,
    record: &mut Handle<B>,
    view: &View<B>,
    marks: &[Mark],
    number: usize,
) -> Result<u64, Refusal>
    ensures { IfOk result (λ wrong. wrong ≤ shared.now.load.rounds) }
{
    let Some(mark) = marks.get(number) else {
        return Err(Refusal::NoActor);
    };
    let mut reader = shared.domain.register(rt, record)?;
    if P::QSBR {
        reader.online()?;
    }
    let key = number as u64 % u64::from(shared.load.updaters);
    let wrong = sections(rt, shared, &mut reader, view, mark, key);
    match reader.unregister(record) {
        Ok(()) => wrong,
        Err((refusal, _)) => Err(refusal),
    }
}
