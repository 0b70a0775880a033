//! Updaters: what they know, the records that they have, and their waits.

use crate::codes::Code;
use crate::plain;
use crate::walker::done;
use call_text::{Answer, Verb};
use gp_memb::GracePlan;
use rcu_hash::{BarrierMark, ChainRule, Domain, Handle, LiveCookie, Owned, Site, Unlinked};
use rcu_model::Refusal;
use std::alloc::{AllocError, Global};
use std::sync::Wait;

/// How many updaters a script may name.
const UPDATERS: usize = 16;

/// What an updater keeps between two lines.
#[derive(Drop)]
pub(crate) struct Updater<B: Site> {
    /// What it has seen and heard of.
    pub(crate) record: Handle<B>,
    /// What it allocated and did not publish.
    pub(crate) owned: Vec<Owned<B>>,
    /// What it cut and did not retire.
    pub(crate) unlinked: Vec<Unlinked<B>>,
    cookie: Option<LiveCookie>,
    mark: Option<BarrierMark>,
}

/// All updaters, which have nothing, and have seen as much as the record.
pub(crate) fn all_updaters<P: GracePlan + Drop, K: ChainRule, B: Site>(
    alloc: Global,
    domain: &Domain<P, K, B, Code>,
    record: &mut Handle<B>,
) -> Result<Vec<Updater<B>>, AllocError> {
    let mut all = Vec::new(alloc);
    for _ in 0..UPDATERS {
        let updater = Updater {
            record: plain::split(domain, record),
            owned: Vec::new(alloc),
            unlinked: Vec::new(alloc),
            cookie: None,
            mark: None,
        };
        all.push(updater)?;
    }
    Ok(all)
}

impl<B: Site> Updater<B> {
    fn alloc<P: GracePlan + Drop, K: ChainRule, R: Wait>(
        &mut self,
        rt: &R,
        domain: &Domain<P, K, B, Code>,
        words: [u64; 4],
    ) -> Answer {
        if self.owned.reserve(1).is_err() {
            return Answer::Refused(Refusal::Memory);
        }
        match plain::alloc(rt, domain, &mut self.record, words) {
            Ok(owned) => {
                let object = owned.object().0;
                let _ = self.owned.push(owned);
                Answer::Object(object)
            }
            Err(refusal) => Answer::Refused(refusal),
        }
    }

    fn discard<P: GracePlan + Drop, K: ChainRule>(
        &mut self,
        domain: &Domain<P, K, B, Code>,
    ) -> Answer {
        match self.owned.pop() {
            Some(owned) => {
                plain::discard(domain, &mut self.record, owned);
                Answer::Done
            }
            None => Answer::Refused(Refusal::NoPlace),
        }
    }

    /// Keeps a record that was cut, for which there is room, and tells its object.
    pub(crate) fn keep_cut<P: GracePlan + Drop, K: ChainRule>(
        &mut self,
        domain: &Domain<P, K, B, Code>,
        cut: Unlinked<B>,
    ) -> Answer {
        let mut cut = cut;
        let object = plain::object(domain, &mut cut);
        let _ = self.unlinked.push(cut);
        Answer::Object(object)
    }

    fn start<P: GracePlan + Drop, K: ChainRule>(
        &mut self,
        domain: &Domain<P, K, B, Code>,
    ) -> Answer {
        match plain::start_poll(domain, &mut self.record) {
            Ok(cookie) => {
                self.cookie = Some(cookie);
                Answer::Done
            }
            Err(refusal) => Answer::Refused(refusal),
        }
    }

    fn poll<P: GracePlan + Drop, K: ChainRule>(
        &mut self,
        domain: &Domain<P, K, B, Code>,
    ) -> Answer {
        match &self.cookie {
            Some(cookie) => Answer::Says(plain::poll(domain, &mut self.record, cookie)),
            None => Answer::Refused(Refusal::NotOpen),
        }
    }

    fn is_done<P: GracePlan + Drop, K: ChainRule>(
        &mut self,
        domain: &Domain<P, K, B, Code>,
    ) -> Answer {
        match &self.mark {
            Some(mark) => Answer::Says(plain::barrier_done(domain, &mut self.record, mark)),
            None => Answer::Refused(Refusal::NotOpen),
        }
    }

    /// The calls on grace periods and callbacks, none of which has to wait for a reader or a worker any more.
    fn wait<P: GracePlan + Drop, K: ChainRule, R: Wait>(
        &mut self,
        rt: &R,
        domain: &Domain<P, K, B, Code>,
        verb: Verb,
    ) -> Answer {
        match verb {
            Verb::Start => self.start(domain),
            Verb::Poll => self.poll(domain),
            Verb::Mark => {
                self.mark = Some(plain::barrier_start(domain, &mut self.record));
                Answer::Done
            }
            Verb::Done => self.is_done(domain),
            Verb::Synchronize => done(plain::synchronize(rt, domain, &mut self.record)),
            Verb::Barrier => {
                plain::barrier(rt, domain, &mut self.record);
                Answer::Done
            }
            _ => Answer::Refused(Refusal::BadText),
        }
    }

    /// A call that needs no chain, with these numbers.
    pub(crate) fn call<P: GracePlan + Drop, K: ChainRule, R: Wait>(
        &mut self,
        rt: &R,
        domain: &Domain<P, K, B, Code>,
        verb: Verb,
        numbers: [u64; 4],
    ) -> Answer {
        match verb {
            Verb::Alloc => self.alloc(rt, domain, numbers),
            Verb::Discard => self.discard(domain),
            _ => self.wait(rt, domain, verb),
        }
    }
}
