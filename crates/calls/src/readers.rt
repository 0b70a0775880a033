//! The places of readers.

ghost use Rattle.std.specs.Prelude.{◌≡◌, IfSome, IfOk};
ghost use Rattle.std.specs.List.{All};
ghost use Rattle.calls.specs.Standing.{Stands};

use crate::codes::Code;
use crate::walker::{Walker, walk};
use call_text::{Answer, Verb};
use gp_memb::GracePlan;
use rcu_hash::{ChainRule, Domain, Handle, Site};
use rcu_model::Refusal;
use std::alloc::{AllocError, Global};
use std::sync::Wait;

/// How many readers a script may name.
const READERS: usize = 256;

/// No reader at each place.
pub(crate) fn no_readers<P: GracePlan, K: ChainRule, B: Site>(
    alloc: Global,
) -> Result<Vec<Option<Walker<P, K, B>>>, AllocError>
    ensures { IfOk result (λ v. All (λ o. IfSome o (λ w. Stands w.reader.core w.held)) v.items) }
{
    let mut places = Vec::new(alloc);
    for _ in 0..READERS {
        places.push(None)?;
    }
    Ok(places)
}

/// Registers a reader at its place: refused with `Busy` where one is there.
fn register<P: GracePlan + Drop, K: ChainRule, B: Site, R: Wait>(
    rt: &R,
    domain: &Domain<P, K, B, Code>,
    record: &mut Handle<B>,
    place: &mut Option<Walker<P, K, B>>,
) -> Answer
    requires { IfSome place.old (λ w. Stands w.reader.core w.held) }
    ensures { IfSome place.new (λ w. Stands w.reader.core w.held) }
{
    if place.is_some() {
        return Answer::Refused(Refusal::Busy);
    }
    match domain.register(rt, record) {
        Ok(reader) => {
            *place = Some(Walker { reader, held: None });
            Answer::Done
        }
        Err(refusal) => Answer::Refused(refusal),
    }
}

/// Gives a reader's slot back.
fn unregister<P: GracePlan, K: ChainRule, B: Site>(
    record: &mut Handle<B>,
    place: &mut Option<Walker<P, K, B>>,
) -> Answer
    requires { IfSome place.old (λ w. Stands w.reader.core w.held) }
    ensures { IfSome place.new (λ w. Stands w.reader.core w.held) }
{
    let Some(walker) = place.take() else {
        return Answer::Refused(Refusal::NoActor);
    };
    let Walker { reader, held } = walker;
    match reader.unregister(record) {
        Ok(()) => Answer::Done,
        Err((refusal, reader)) => {
            *place = Some(Walker { reader, held });
            Answer::Refused(refusal)
        }
    }
}

/// A reader's call at its place: refused with `NoActor` where none is there.
fn at_place<P: GracePlan + Drop, K: ChainRule, B: Site, R: Wait>(
    rt: &R,
    domain: &Domain<P, K, B, Code>,
    record: &mut Handle<B>,
    place: &mut Option<Walker<P, K, B>>,
    verb: Verb,
    number: usize,
) -> Answer
    requires stands { IfSome place.old (λ w. Stands w.reader.core w.held) }
    ensures { IfSome place.new (λ w. Stands w.reader.core w.held) }
{
    match verb {
        Verb::Register => register(rt, domain, record, place),
        Verb::Unregister => unregister(record, place),
        _ => match place {
            Some(walker) => walk(walker, verb, number),
            None => Answer::Refused(Refusal::NoActor),
        },
    }
}

/// A reader's call, with this number: refused with `NoActor` where there is no such place.
pub(crate) fn reader_line<P: GracePlan + Drop, K: ChainRule, B: Site, R: Wait>(
    rt: &R,
    domain: &Domain<P, K, B, Code>,
    record: &mut Handle<B>,
    places: &mut Vec<Option<Walker<P, K, B>>>,
    reader: usize,
    verb: Verb,
    number: usize,
) -> Answer
    requires stand { All (λ o. IfSome o (λ w. Stands w.reader.core w.held)) places.old.items }
    ensures { All (λ o. IfSome o (λ w. Stands w.reader.core w.held)) places.new.items }
{
    if reader >= places.len() {
        return Answer::Refused(Refusal::NoActor);
    }
    at_place(rt, domain, record, &mut places[reader], verb, number)
}

/// Whether a reader's section stands in the way of a grace period.
fn is_inside<P: GracePlan, K: ChainRule, B: Site>(walker: &Walker<P, K, B>) -> bool {
    if P::QSBR {
        walker.reader.word() != 0
    } else {
        walker.reader.depth() != 0
    }
}

/// Whether any does.
pub(crate) fn are_inside<P: GracePlan, K: ChainRule, B: Site>(
    places: &Vec<Option<Walker<P, K, B>>>,
) -> bool {
    for place in places {
        if let Some(walker) = place {
            if is_inside(walker) {
                return true;
            }
        }
    }
    false
}
