//! The loads of a reader in a section.

ghost use Rattle.std.specs.Prelude.{◌≡◌, ◌<◌, ◌≤◌, ◌↔◌, None, IfOk, IfErr, IfSome, IfNone, IsTrue};
ghost use Rattle.rcu_model.specs.declared.refusal.Refusal.TheVariants.{NoPlace};

use crate::held::Held;
use crate::reader_core::ReaderCore;
use gp_memb::GracePlan;
use live_words::{ChainRule, load_head, load_link, load_word};
use rcu_model::Refusal;

impl<P: GracePlan, K: ChainRule> ReaderCore<P, K> {
    ghost use Rattle.live_read.specs.Holding.{KeepsTable, MayHoldIn};
    ghost use Rattle.live_read.specs.Reads.{FindsFirst, HasWord, HasWords, HoldsFirst, HoldsLast, HoldsNext, Looks};

    // Whether there is such a chain.
    fn has_chain(&self, chain: usize) -> bool
        ensures { IsTrue result ↔ (chain < self.now.seat.me.0.sizes.chains) }
    {
        chain < self.table.chains
    }

    /// The first object of a chain, which the reader holds from then on, in the lock or section that is open.
    ///
    /// Refused with `NoPlace` exactly where there is no such chain, and then the reader is as it was.
    pub fn first(&mut self, chain: usize) -> Result<Option<Held>, Refusal>
        requires { 0 < self.old.depth }
        ensures refused { IfErr result (λ e. (e ≡ NoPlace) × (self.old.seat.me.0.sizes.chains ≤ chain) × (self.new ≡ self.old)) }
        ensures looked { IfOk result (λ _. (chain < self.old.seat.me.0.sizes.chains) × Looks P.QSBR K.allows self.old self.new) }
        ensures none { IfOk result (λ found. IfNone found (FindsFirst self.new chain None)) }
        ensures some { IfOk result (λ found. IfSome found (λ h. HoldsFirst self.new chain h.cell)) }
        ensures held { IfOk result (λ found. IfSome found (λ h. MayHoldIn self.new h.cell)) }
        ensures table { KeepsTable self.old self.new }
    {
        if !self.has_chain(chain) {
            return Err(Refusal::NoPlace);
        }
        let word = load_head(&self.table, &mut self.seat, chain);
        if word == 0 {
            return Ok(None);
        }
        Ok(Some(Held {
            cell: (word - 1) as usize,
        }))
    }

    /// What follows an object that the reader holds, and is held from then on too.
    pub fn next(&mut self, held: Held) -> Option<Held>
        requires open_section { 0 < self.old.depth }
        requires held { MayHoldIn self.old held.cell }
        ensures looked { Looks P.QSBR K.allows self.old self.new }
        ensures still { MayHoldIn self.new held.cell }
        ensures none { IfNone result (HoldsLast self.old self.new held.cell) }
        ensures held { IfSome result (λ h. MayHoldIn self.new h.cell) }
        ensures some { IfSome result (λ h. HoldsNext self.old self.new held.cell h.cell) }
        ensures table { KeepsTable self.old self.new }
    {
        let word = load_link(&self.table, &mut self.seat, held.cell);
        if word == 0 {
            return None;
        }
        Some(Held {
            cell: (word - 1) as usize,
        })
    }

    /// One of the four words of an object that the reader holds.
    pub fn read_word(&mut self, held: Held, index: usize) -> u64
        requires open_section { (0 < self.old.depth) × (index < 4) }
        requires held { MayHoldIn self.old held.cell }
        ensures looked { Looks P.QSBR K.allows self.old self.new }
        ensures still { MayHoldIn self.new held.cell }
        ensures word { HasWord self.old held.cell index result }
        ensures table { KeepsTable self.old self.new }
    {
        load_word(&self.table, &mut self.seat, held.cell, index)
    }

    /// The four words of an object that the reader holds.
    pub fn read(&mut self, held: Held) -> [u64; 4]
        requires open_section { 0 < self.old.depth }
        requires held { MayHoldIn self.old held.cell }
        ensures looked { Looks P.QSBR K.allows self.old self.new }
        ensures still { MayHoldIn self.new held.cell }
        ensures payload { HasWords self.old held.cell result }
        ensures table { KeepsTable self.old self.new }
    {
        let one = self.read_word(held, 0);
        let two = self.read_word(held, 1);
        let three = self.read_word(held, 2);
        let four = self.read_word(held, 3);
        [one, two, three, four]
    }
}
