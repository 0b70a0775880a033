//! Readers, and what they found last.

ghost use Rattle.std.specs.Prelude.{◌≡◌, ◌<◌, Some, IfSome};
ghost use Rattle.calls.specs.Standing.{Stands};

use call_text::{Answer, Verb};
use gp_memb::GracePlan;
use rcu_hash::{ChainRule, Held, Reader, Site};
use rcu_model::Refusal;

/// A registered reader, and what it found last, which it may still hold.
#[derive(Drop)]
pub(crate) struct Walker<P: GracePlan, K: ChainRule, B: Site> {
    pub(crate) reader: Reader<P, K, B>,
    pub(crate) held: Option<Held>,
}

/// What a call with no value is answered.
pub(crate) fn done(made: Result<(), Refusal>) -> Answer {
    match made {
        Ok(()) => Answer::Done,
        Err(refusal) => Answer::Refused(refusal),
    }
}

/// What a search is answered.
fn found(held: Option<Held>) -> Answer {
    if held.is_some() {
        Answer::Done
    } else {
        Answer::Nothing
    }
}

/// One lock more, in which is held what was held before.
fn lock<P: GracePlan, K: ChainRule, B: Site>(walker: &mut Walker<P, K, B>) -> Answer
    requires stands { Stands walker.old.reader.core walker.old.held }
    ensures { Stands walker.new.reader.core walker.new.held }
{
    let made = walker.reader.lock();
    done(made)
}

/// As `lock`, but that it tells whether it locked.
fn try_lock<P: GracePlan, K: ChainRule, B: Site>(walker: &mut Walker<P, K, B>) -> Answer
    requires stands { Stands walker.old.reader.core walker.old.held }
    ensures { Stands walker.new.reader.core walker.new.held }
{
    let locked = walker.reader.try_lock();
    Answer::Says(locked)
}

/// The record that was found, as long as a lock is open; else none.
fn kept(depth: u64, held: Option<Held>) -> Option<Held>
    ensures { IfSome result (λ h. (0 < depth) × (held ≡ Some h)) }
{
    if depth == 0 { None } else { held }
}

/// One lock less. After the last one nothing is held.
fn unlock<P: GracePlan, K: ChainRule, B: Site>(walker: &mut Walker<P, K, B>) -> Answer
    requires stands { Stands walker.old.reader.core walker.old.held }
    ensures { Stands walker.new.reader.core walker.new.held }
{
    let made = walker.reader.unlock();
    walker.held = kept(walker.reader.depth(), walker.held);
    done(made)
}

/// `first`: refused with `NotOpen` where no lock is open.
fn first<P: GracePlan, K: ChainRule, B: Site>(walker: &mut Walker<P, K, B>, chain: usize) -> Answer
    requires stands { Stands walker.old.reader.core walker.old.held }
    ensures { Stands walker.new.reader.core walker.new.held }
{
    if walker.reader.depth() == 0 {
        return Answer::Refused(Refusal::NotOpen);
    }
    match walker.reader.first(chain) {
        Ok(held) => {
            walker.held = held;
            found(held)
        }
        Err(refusal) => Answer::Refused(refusal),
    }
}

/// `next`: refused with `NoPlace` where nothing was found last.
fn next<P: GracePlan, K: ChainRule, B: Site>(walker: &mut Walker<P, K, B>) -> Answer
    requires stands { Stands walker.old.reader.core walker.old.held }
    ensures { Stands walker.new.reader.core walker.new.held }
{
    let Some(held) = walker.held else {
        return Answer::Refused(Refusal::NoPlace);
    };
    let next = walker.reader.next(held);
    walker.held = next;
    found(next)
}

/// `read`: refused with `NoPlace` where nothing was found last.
fn read<P: GracePlan, K: ChainRule, B: Site>(walker: &mut Walker<P, K, B>) -> Answer
    requires stands { Stands walker.old.reader.core walker.old.held }
    ensures { Stands walker.new.reader.core walker.new.held }
{
    let Some(held) = walker.held else {
        return Answer::Refused(Refusal::NoPlace);
    };
    let words = walker.reader.read(held);
    Answer::Words(words)
}

/// `read_word`: refused with `NoPlace` where nothing was found last, and at an index above 3.
fn word<P: GracePlan, K: ChainRule, B: Site>(walker: &mut Walker<P, K, B>, index: usize) -> Answer
    requires stands { Stands walker.old.reader.core walker.old.held }
    ensures { Stands walker.new.reader.core walker.new.held }
{
    let Some(held) = walker.held else {
        return Answer::Refused(Refusal::NoPlace);
    };
    if index > 3 {
        return Answer::Refused(Refusal::NoPlace);
    }
    let word = walker.reader.read_word(held, index);
    Answer::Number(word)
}

/// The calls of the quiescent-state flavour, which are refused while a lock is open.
fn announce<P: GracePlan, K: ChainRule, B: Site>(walker: &mut Walker<P, K, B>, verb: Verb) -> Answer
    requires stands { Stands walker.old.reader.core walker.old.held }
    ensures { Stands walker.new.reader.core walker.new.held }
{
    let made = match verb {
        Verb::Online => walker.reader.online(),
        Verb::Quiescent => walker.reader.quiescent(),
        _ => walker.reader.offline(),
    };
    if walker.reader.depth() == 0 {
        walker.held = None;
    }
    done(made)
}

/// The calls by which a reader finds and reads.
fn look<P: GracePlan, K: ChainRule, B: Site>(
    walker: &mut Walker<P, K, B>,
    verb: Verb,
    number: usize,
) -> Answer
    requires stands { Stands walker.old.reader.core walker.old.held }
    ensures { Stands walker.new.reader.core walker.new.held }
{
    match verb {
        Verb::First => first(walker, number),
        Verb::Next => next(walker),
        Verb::Read => read(walker),
        Verb::Word => word(walker, number),
        _ => Answer::Refused(Refusal::BadText),
    }
}

/// A call of a registered reader, with this number.
pub(crate) fn walk<P: GracePlan, K: ChainRule, B: Site>(
    walker: &mut Walker<P, K, B>,
    verb: Verb,
    number: usize,
) -> Answer
    requires stands { Stands walker.old.reader.core walker.old.held }
    ensures { Stands walker.new.reader.core walker.new.held }
{
    match verb {
        Verb::Lock => lock(walker),
        Verb::TryLock => try_lock(walker),
        Verb::Unlock => unlock(walker),
        Verb::Online | Verb::Quiescent | Verb::Offline => announce(walker, verb),
        _ => look(walker, verb, number),
    }
}
