//! Polling in place of waiting: a value that only a grace period opens. The program does other work until then.

use rcu::{AnyChain, Domain, Handle, Memb, NoCallback, Pending, Program, Refusal, Site, Slot};
use std::alloc::Global;
use std::sync::Wait;

/// How often the value is asked for until it opens. A poll sets nobody to work, so this waits itself after the tenth.
fn polls<B: Site, R: Wait>(
    rt: &R,
    domain: &Domain<Memb, AnyChain, B, NoCallback>,
    own: &mut Handle<B>,
    room: Pending<B, u64>,
) -> Result<(u64, u64), Refusal> {
    let mut room = room;
    for number in 0..20u64 {
        match room.open(domain, own) {
            Ok(free) => return Ok((free, number)),
            Err(still) => room = still,
        }
        if number == 9 {
            domain.synchronize(rt, own)?;
        }
    }
    Err(Refusal::Exhausted)
}

/// A hotel has one guest at a time, whose room readers look up. The room of the guest before is let again once no
/// section can have found it. It answers that room, and how many polls said no.
#[derive(Drop)]
pub(crate) struct Hotel;

impl<R: Wait> Program<Memb, AnyChain, NoCallback, R> for Hotel {
    type Out = Result<(u64, u64), Refusal>;

    fn run<B: Site>(
        self,
        rt: &R,
        _alloc: Global,
        domain: &Domain<Memb, AnyChain, B, NoCallback>,
        mut own: Handle<B>,
    ) -> Result<(u64, u64), Refusal> {
        let current = Slot::new(domain, 0, 101)?;
        if let Err((refusal, _)) = current.replace(rt, &mut own, 102, NoCallback) {
            return Err(refusal);
        }
        match Pending::new(domain, &mut own, 101) {
            Ok(room) => polls(rt, domain, &mut own, room),
            Err((refusal, _)) => Err(refusal),
        }
    }
}
