//! A stock: a map from goods to pieces, which a section goes through while others may write.

use rcu::{Chains, Domain, Handle, Map, Memb, NoCallback, Program, Reclaim, Refusal, Site, Tabled};
use std::alloc::Global;
use std::sync::Wait;

/// The goods that are delivered, and those that are sold out.
const DELIVERED: u64 = 5;

const SOLD_OUT: u64 = 3;

/// How many goods there are, and pieces of all.
#[derive(Drop)]
pub(crate) struct Stock;

impl<R: Wait> Program<Memb, Tabled, Reclaim<NoCallback>, R> for Stock {
    type Out = Result<(u64, u64), Refusal>;

    fn run<B: Site>(
        self,
        rt: &R,
        alloc: Global,
        domain: &Domain<Memb, Tabled, B, Reclaim<NoCallback>>,
        mut own: Handle<B>,
    ) -> Result<(u64, u64), Refusal> {
        let mut chains = Chains::of(domain);
        let (index, row) = (chains.take(1)?, chains.take(4)?);
        let stock = Map::new(rt, alloc, domain, &mut own, index, row, 4, NoCallback)?;
        for goods in 0..DELIVERED {
            stock.set(rt, &mut own, goods, 10 * goods)?;
        }
        stock.remove(rt, &mut own, SOLD_OUT)?;
        let mut reader = domain.register(rt, &mut own)?;
        let mut section = reader.section()?;
        let (mut goods, mut all) = (0u64, 0u64);
        stock.for_each(
            &mut section,
            &mut |_, pieces: u64| {
                goods = goods.saturating_add(1);
                all = all.saturating_add(pieces);
            },
        );
        section.close();
        if let Err((refusal, _)) = reader.unregister(&mut own) {
            return Err(refusal);
        }
        Ok((goods, all))
    }
}
