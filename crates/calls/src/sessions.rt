//! What answers the calls of a script, of chains or of lists and tables.

ghost use Rattle.std.specs.Prelude.{◌≡◌, IfSome, IfOk};
ghost use Rattle.std.specs.List.{All};
ghost use Rattle.calls.specs.Standing.{Stands};

use crate::chains::{Writer, chain_line, no_writers};
use crate::codes::Code;
use crate::looking::look_line;
use crate::maps::Maps;
use crate::readers::{are_inside, no_readers, reader_line};
use crate::session::Session;
use crate::walker::Walker;
use call_text::{Actor, Answer, Call, Verb};
use gp_memb::GracePlan;
use rcu_hash::{AnyChain, Domain, Handle, Site, Tabled};
use rcu_model::Refusal;
use std::alloc::{AllocError, Global};
use std::sync::Wait;

/// What answers calls, one after the other.
pub(crate) trait Answers {
    /// What holds between two calls.
    ghost stands: { Self → Type 0 };

    /// Makes a call, and answers it.
    fn answer<R: Wait>(&mut self, rt: &R, alloc: Global, call: &Call) -> Answer
        requires { stands self.old }
        ensures { stands self.new };
}

/// Readers and updaters, where updaters write the chains.
#[derive(Drop)]
pub(crate) struct OfChains<'d, P: GracePlan + Drop, B: Site> {
    pub(crate) session: Session<'d, P, AnyChain, B>,
    pub(crate) places: Vec<Option<Walker<P, AnyChain, B>>>,
    writers: Vec<Option<Writer<'d, P, B>>>,
}

impl<'d, P: GracePlan + Drop, B: Site> OfChains<'d, P, B> {
    /// Nothing was called yet, in a domain of this many queues.
    pub(crate) fn new(
        alloc: Global,
        domain: &'d Domain<P, AnyChain, B, Code>,
        record: Handle<B>,
        queues: usize,
    ) -> Result<OfChains<'d, P, B>, AllocError>
        ensures { IfOk result (λ s. All (λ o. IfSome o (λ w. Stands w.reader.core w.held)) s.places.items) }
    {
        Ok(OfChains {
            session: Session::new(alloc, domain, record, queues)?,
            places: no_readers(alloc)?,
            writers: no_writers(alloc, domain.chains())?,
        })
    }
}

/// A call of an updater, where updaters write the chains.
fn updater_line<'d, P: GracePlan + Drop, B: Site, R: Wait>(
    rt: &R,
    session: &mut Session<'d, P, AnyChain, B>,
    writers: &mut Vec<Option<Writer<'d, P, B>>>,
    inside: bool,
    number: usize,
    call: &Call,
) -> Answer {
    if !is_of_chains(call.verb) {
        return session.updater_line(rt, inside, number, call.verb, call.numbers);
    }
    let domain = session.domain;
    match session.updaters.get_mut(number) {
        Some(updater) => chain_line(rt, domain, updater, number, writers, call),
        None => Answer::Refused(Refusal::NoActor),
    }
}

/// Whether a call of an updater is one of a chain, or of what it cut.
fn is_of_chains(verb: Verb) -> bool {
    is_of_length(verb)
        || matches!(
            verb,
            Verb::Push
                | Verb::Replace
                | Verb::Cut
                | Verb::Retire
                | Verb::CutRetire
                | Verb::ReplaceRetire
        )
}

/// Whether a call of an updater is one of a chain, whose objects stay.
fn is_of_length(verb: Verb) -> bool {
    matches!(
        verb,
        Verb::Chain
            | Verb::Free
            | Verb::Len
            | Verb::Get
            | Verb::Index
            | Verb::Note
            | Verb::SetNote
            | Verb::Hear
    )
}

/// Whether a call of a reader is one of lists and tables.
fn is_of_maps(verb: Verb) -> bool {
    matches!(
        verb,
        Verb::GetInList | Verb::GetInTable | Verb::WalkList | Verb::WalkTable
    )
}

impl<'d, P: GracePlan + Drop, B: Site> Answers for OfChains<'d, P, B> {
    ghost stands = { λ s. All (λ o. IfSome o (λ w. Stands w.reader.core w.held)) s.places.items };

    fn answer<R: Wait>(&mut self, rt: &R, alloc: Global, call: &Call) -> Answer {
        let inside = are_inside(&self.places);
        match call.actor {
            Actor::Reader(number) => {
                if is_of_maps(call.verb) {
                    return Answer::Refused(Refusal::WrongFlavour);
                }
                let (reader, chain) = (number as usize, call.numbers[0] as usize);
                let session = &mut self.session;
                reader_line(
                    rt,
                    session.domain,
                    &mut session.record,
                    &mut self.places,
                    reader,
                    call.verb,
                    chain,
                )
            }
            Actor::Updater(number) => {
                let writers = &mut self.writers;
                updater_line(
                    rt,
                    &mut self.session,
                    writers,
                    inside,
                    number as usize,
                    call,
                )
            }
            Actor::Worker(number) => {
                self.session
                    .worker_line(rt, alloc, inside, call.verb, number as usize)
            }
            Actor::List(_) | Actor::Table(_) => Answer::Refused(Refusal::WrongFlavour),
            Actor::Domain => self.session.domain_line(rt, alloc, call.verb),
        }
    }
}

/// Readers, updaters, lists and tables, where lists and tables write the chains.
#[derive(Drop)]
pub(crate) struct OfMaps<'d, P: GracePlan + Drop, B: Site> {
    pub(crate) session: Session<'d, P, Tabled, B>,
    pub(crate) places: Vec<Option<Walker<P, Tabled, B>>>,
    maps: Maps<'d, P, B>,
}

impl<'d, P: GracePlan + Drop, B: Site> OfMaps<'d, P, B> {
    /// Nothing was called yet, in a domain of this many queues.
    pub(crate) fn new(
        alloc: Global,
        domain: &'d Domain<P, Tabled, B, Code>,
        record: Handle<B>,
        queues: usize,
    ) -> Result<OfMaps<'d, P, B>, AllocError>
        ensures { IfOk result (λ s. All (λ o. IfSome o (λ w. Stands w.reader.core w.held)) s.places.items) }
    {
        Ok(OfMaps {
            session: Session::new(alloc, domain, record, queues)?,
            places: no_readers(alloc)?,
            maps: Maps::new(alloc)?,
        })
    }

    /// A call of a reader.
    fn reader_line<R: Wait>(&mut self, rt: &R, alloc: Global, reader: usize, call: &Call) -> Answer
        requires { All (λ o. IfSome o (λ w. Stands w.reader.core w.held)) self.old.places.items }
        ensures { All (λ o. IfSome o (λ w. Stands w.reader.core w.held)) self.new.places.items }
    {
        let session = &mut self.session;
        if is_of_maps(call.verb) {
            let records = session.records();
            return look_line(
                alloc,
                &self.maps,
                &mut self.places,
                records,
                reader,
                call.verb,
                call.numbers,
            );
        }
        reader_line(
            rt,
            session.domain,
            &mut session.record,
            &mut self.places,
            reader,
            call.verb,
            call.numbers[0] as usize,
        )
    }
}

impl<'d, P: GracePlan + Drop, B: Site> Answers for OfMaps<'d, P, B> {
    ghost stands = { λ s. All (λ o. IfSome o (λ w. Stands w.reader.core w.held)) s.places.items };

    fn answer<R: Wait>(&mut self, rt: &R, alloc: Global, call: &Call) -> Answer {
        let inside = are_inside(&self.places);
        match call.actor {
            Actor::Reader(number) => self.reader_line(rt, alloc, number as usize, call),
            Actor::Updater(number) => {
                if is_of_chains(call.verb) {
                    return Answer::Refused(Refusal::WrongFlavour);
                }
                self.session
                    .updater_line(rt, inside, number as usize, call.verb, call.numbers)
            }
            Actor::Worker(number) => {
                self.session
                    .worker_line(rt, alloc, inside, call.verb, number as usize)
            }
            Actor::List(number) => {
                self.maps
                    .list_line(rt, &mut self.session, number as usize, call)
            }
            Actor::Table(number) => {
                let session = &mut self.session;
                self.maps
                    .table_line(rt, alloc, session, inside, number as usize, call)
            }
            Actor::Domain => self.session.domain_line(rt, alloc, call.verb),
        }
    }
}
