//! A clean shutdown: threads retire records, each waits for its own by a barrier, and returns; then the library closes
//! the domain, and its workers run what is left.

use rcu::{
    AnyChain, Domain, Handle, Memb, NoCallback, Refusal, Site, Threaded, alloc_when_free, hear,
};
use std::alloc::Global;
use std::sync::Wait;

/// Each thread publishes and retires records of a chain of its own.
pub(crate) struct Updaters;

/// How many records each thread retires.
pub(crate) const EACH: u64 = 10;

impl<R: Wait> Threaded<Memb, AnyChain, NoCallback, R> for Updaters {
    type Out = Result<(), Refusal>;

    fn part<B: Site>(
        &self,
        rt: &R,
        _alloc: Global,
        domain: &Domain<Memb, AnyChain, B, NoCallback>,
        mut own: Handle<B>,
        number: usize,
    ) -> Result<(), Refusal> {
        let mut writer = domain.chain(&mut own, number)?;
        for word in 0..EACH {
            let owned = alloc_when_free(rt, domain, &mut own, [word; 4]);
            writer.push(&mut own, owned);
            let retired = domain.cut_retire(rt, &mut own, &mut writer, 0, NoCallback);
            if let Err((refusal, _)) = retired {
                return Err(refusal);
            }
        }
        domain.barrier(rt, &mut own);
        hear(domain, &mut own); // of a log that keeps the headline's promise, with all that was retired here
        Ok(())
    }
}
