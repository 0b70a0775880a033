//! What all scripts have: the domain, its updaters, and whether it is closed.

ghost use Rattle.std.specs.Prelude.{◌≡◌};

use crate::codes::Code;
use crate::plain;
use crate::updater::{Updater, all_updaters};
use crate::workers::{are_waiting, worker_line};
use call_text::{Answer, Verb};
use gp_memb::GracePlan;
use rcu_hash::{ChainRule, Domain, Handle, Site};
use rcu_model::Refusal;
use std::alloc::{AllocError, Global};
use std::sync::Wait;

/// A domain and its updaters, of which none has anything at first.
#[derive(Drop)]
pub(crate) struct Session<'d, P: GracePlan + Drop, K: ChainRule, B: Site> {
    pub(crate) domain: &'d Domain<P, K, B, Code>,
    /// What readers, lists, tables and workers are called with.
    pub(crate) record: Handle<B>,
    pub(crate) updaters: Vec<Updater<B>>,
    queues: usize,
    closed: bool,
}

impl<'d, P: GracePlan + Drop, K: ChainRule, B: Site> Session<'d, P, K, B> {
    /// Nothing was called yet.
    pub(crate) fn new(
        alloc: Global,
        domain: &'d Domain<P, K, B, Code>,
        mut record: Handle<B>,
        queues: usize,
    ) -> Result<Session<'d, P, K, B>, AllocError> {
        let updaters = all_updaters(alloc, domain, &mut record)?;
        Ok(Session {
            domain,
            record,
            updaters,
            queues,
            closed: false,
        })
    }

    /// Tells one updater what another one knows.
    fn inform(&mut self, from: usize, to: usize) -> Answer {
        if to >= self.updaters.len() {
            return Answer::Refused(Refusal::NoActor);
        }
        let Some(updater) = self.updaters.get_mut(from) else {
            return Answer::Refused(Refusal::NoActor);
        };
        let mut told = plain::split(self.domain, &mut updater.record);
        if let Some(updater) = self.updaters.get_mut(to) {
            plain::inform(self.domain, &mut told, &mut updater.record);
        }
        Answer::Done
    }

    /// A call of an updater that needs no chain: a wait that nobody could end is not begun.
    pub(crate) fn updater_line<R: Wait>(
        &mut self,
        rt: &R,
        inside: bool,
        number: usize,
        verb: Verb,
        numbers: [u64; 4],
    ) -> Answer {
        if verb == Verb::Inform {
            return self.inform(number, numbers[0] as usize);
        }
        let Some(updater) = self.updaters.get_mut(number) else {
            return Answer::Refused(Refusal::NoActor);
        };
        let waits = match verb {
            Verb::Synchronize => inside,
            Verb::Barrier => are_waiting(self.domain, &mut self.record),
            _ => false,
        };
        if waits {
            return Answer::WouldWait;
        }
        updater.call(rt, self.domain, verb, numbers)
    }

    /// A call of a worker.
    pub(crate) fn worker_line<R: Wait>(
        &mut self,
        rt: &R,
        alloc: Global,
        inside: bool,
        verb: Verb,
        queue: usize,
    ) -> Answer {
        if queue >= self.queues {
            return Answer::Refused(Refusal::NoActor);
        }
        worker_line(
            rt,
            alloc,
            self.domain,
            &mut self.record,
            inside,
            self.closed,
            verb,
            queue,
        )
    }

    /// How full the domain is.
    fn counts(&mut self, alloc: Global) -> Answer {
        let Ok(mut waiting) = Vec::with_capacity(alloc, self.queues) else {
            return Answer::Refused(Refusal::Memory);
        };
        let counts = plain::counts(self.domain, &mut self.record);
        for many in counts.waiting.iter().take(self.queues) {
            let _ = waiting.push(*many);
        }
        Answer::Counted {
            seq: counts.seq,
            records: counts.records,
            waiting,
        }
    }

    /// Which slots stand in the way of a grace period.
    fn stalled(&mut self, alloc: Global) -> Answer {
        let found = match plain::stalled(alloc, self.domain, &mut self.record) {
            Ok(found) => found,
            Err(refusal) => return Answer::Refused(refusal),
        };
        let Ok(mut slots) = Vec::with_capacity(alloc, found.len()) else {
            return Answer::Refused(Refusal::Memory);
        };
        for slot in &found {
            let _ = slots.push(*slot as u64);
        }
        Answer::Slots(slots)
    }

    /// How many records are in use.
    pub(crate) fn records(&mut self) -> usize {
        plain::counts(self.domain, &mut self.record).records as usize
    }

    /// A call of the domain.
    pub(crate) fn domain_line<R: Wait>(&mut self, rt: &R, alloc: Global, verb: Verb) -> Answer {
        match verb {
            Verb::Counts => self.counts(alloc),
            Verb::Stalled => self.stalled(alloc),
            Verb::Close => {
                plain::close(rt, self.domain, &mut self.record);
                self.closed = true;
                Answer::Done
            }
            _ => Answer::Refused(Refusal::BadText),
        }
    }
}
