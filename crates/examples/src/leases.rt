//! Threads by hand: one hands out a room again after a grace period, and closes the domain; the other is the worker.

ghost use Rattle.rcu.specs.Naming.{Names};

use rcu::{
    Domain, Handle, Map, Memb, NoCallback, Opened, Pending, Reclaim, Refusal, Site, Tabled, work,
};
use std::alloc::Global;
use std::sync::Wait;
use std::thread::{Threads, join};

/// The room that was left, once nobody can have found it.
fn lets<B: Site, R: Wait>(
    rt: &R,
    home: &Domain<Memb, Tabled, B, Reclaim<NoCallback>>,
    mut left: Pending<B, u64>,
    own: &mut Handle<B>,
) -> Result<u64, Refusal> {
    for _ in rt.forever() {
        match left.open(home, own) {
            Ok(room) => return Ok(room),
            Err(again) => left = again,
        }
        home.synchronize(rt, own)?;
    }
    unreachable!()
}

/// Guest 7 moves from room 101 to 102, where readers may have found 101 before. Answers the room that is free, and how
/// many records were reclaimed.
pub(crate) fn serve<B: Site + Send + Sync, R: Threads + Wait + Sync>(
    rt: &R,
    alloc: Global,
    opened: Opened<Memb, Tabled>,
) -> Result<(u64, u64), Refusal>
    requires { Names B.Site opened }
{
    let (domain, mut own) = opened.into_domain::<B, Reclaim<NoCallback>>(alloc)?;
    let rooms = Map::new(rt, alloc, &domain, &mut own, 0, 1, 4, NoCallback)?;
    rooms.set(rt, &mut own, 7, 101)?;
    rooms.set(rt, &mut own, 7, 102)?;
    let left = Pending::new(&domain, &mut own, 101).map_err(|refused| refused.0)?;
    let mut other = domain.split(&mut own);
    let (free, reclaimed) = join(
        rt,
        || {
            let free = lets(rt, &domain, left, &mut other);
            domain.close(rt, &mut other);
            free
        },
        || work(rt, alloc, &domain, &mut own, 0),
    );
    Ok((free?, reclaimed?))
}
