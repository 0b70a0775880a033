//! A routing table: a map for each length of prefix, of which a section looks the longer one up first.

use rcu::{
    Chains, Domain, Handle, Map, Memb, NoCallback, Program, Reader, Reclaim, Refusal, Site, Tabled,
};
use std::alloc::Global;
use std::sync::Wait;

/// The masks of the longer prefixes and of the shorter ones, and the address that is looked up.
const LONGER: u64 = 0xffff_0000;

const SHORTER: u64 = 0xff00_0000;

const ADDRESS: u64 = 0x0a01_0203;

/// The next hops of prefixes, by the prefix.
type Hops<'d, B> = Map<'d, Memb, B, NoCallback, u64>;

/// Where the address goes: the longest prefix leads. 0 where none does.
fn next_hop<B: Site>(
    longer: &Hops<'_, B>,
    shorter: &Hops<'_, B>,
    reader: &mut Reader<Memb, Tabled, B>,
) -> Result<u64, Refusal> {
    let mut section = reader.section()?;
    match longer.get(&mut section, ADDRESS & LONGER) {
        Some(hop) => Ok(hop),
        None => Ok(shorter.get(&mut section, ADDRESS & SHORTER).unwrap_or(0)),
    }
}

/// The next hops of an address that two prefixes lead: at first, once the map of the longer ones has grown, and without.
#[derive(Drop)]
pub(crate) struct Router;

impl<R: Wait> Program<Memb, Tabled, Reclaim<NoCallback>, R> for Router {
    type Out = Result<(u64, u64, u64), Refusal>;

    fn run<B: Site>(
        self,
        rt: &R,
        alloc: Global,
        domain: &Domain<Memb, Tabled, B, Reclaim<NoCallback>>,
        mut own: Handle<B>,
    ) -> Result<(u64, u64, u64), Refusal> {
        let mut chains = Chains::of(domain);
        let (index, row) = (chains.take(1)?, chains.take(4)?);
        let longer = Map::new(rt, alloc, domain, &mut own, index, row, 4, NoCallback)?;
        let (index, row) = (chains.take(1)?, chains.take(4)?);
        let shorter = Map::new(rt, alloc, domain, &mut own, index, row, 4, NoCallback)?;
        let mut reader = domain.register(rt, &mut own)?;
        shorter.set(rt, &mut own, ADDRESS & SHORTER, 1)?;
        longer.set(rt, &mut own, ADDRESS & LONGER, 2)?;
        let before = next_hop(&longer, &shorter, &mut reader)?;
        longer.resize(rt, alloc, &mut own, chains.take(8)?, 8)?;
        let grown = next_hop(&longer, &shorter, &mut reader)?;
        longer.remove(rt, &mut own, ADDRESS & LONGER)?;
        Ok((before, grown, next_hop(&longer, &shorter, &mut reader)?))
    }
}
