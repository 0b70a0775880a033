//! Read-side sections.

ghost use Rattle.std.specs.Prelude.{◌≡◌, ◌<◌, ◌≤◌, None, IfOk, IfErr, IfSome, IfNone};
ghost use Rattle.rcu_model.specs.declared.refusal.Refusal.TheVariants.{NoPlace};
ghost use Rattle.live_read.specs.Holding.{MayHoldIn};
ghost use Rattle.live_read.specs.Reads.{FindsFirst, HasWord, HasWords, HoldsFirst, HoldsLast, HoldsNext, Looks};
ghost use Rattle.live_read.specs.Sections.{ClosesSection, EndsSection};

use crate::held::Held;
use crate::reader::Reader;
use crate::site::Site;
use gp_memb::GracePlan;
use live_words::ChainRule;
use rcu_model::Refusal;

/// A read-side section, open until it is dropped. `section.reader.section()` begins an inner one, after whose end the
/// outer one is known to be open still.
pub struct Section<'a, P: GracePlan, K: ChainRule, B: Site> {
    /// The reader whose section it is.
    pub reader: &'a mut Reader<P, K, B>,
    /// It is open: the depth of its reader counts more than the locks.
    pub ghost open_section: { reader.now.core.locks < reader.now.core.depth },
}

impl<'a, P: GracePlan, K: ChainRule, B: Site> Section<'a, P, K, B> {
    pub(crate) fn of(reader: &'a mut Reader<P, K, B>) -> Section<'a, P, K, B>
        requires { reader.old.core.locks < reader.old.core.depth }
        ensures same_reference { result.reader.ghost_name ≡ reader.entry.ghost_name }
        ensures value { result.reader.now ≡ reader.old }
    {
        Section { reader }
    }

    /// The first object of a chain, which the section holds from then on: liburcu's `rcu_dereference` of a list's head.
    /// It is the first one in the log that the reader has seen at the return, after all that it had seen and heard of.
    ///
    /// Refused with `NoPlace` exactly where there is no such chain, and then the reader is as it was.
    pub fn first(&mut self, chain: usize) -> Result<Option<Held>, Refusal>
        ensures reader { self.new.reader.ghost_name ≡ self.old.reader.ghost_name }
        ensures refused { IfErr result (λ e. (e ≡ NoPlace) × (B.sizes.chains ≤ chain) × (self.new.reader.now ≡ self.old.reader.now)) }
        ensures looked { IfOk result (λ _. (chain < B.sizes.chains) × Looks P.QSBR K.allows self.old.reader.now.core self.new.reader.now.core) }
        ensures none { IfOk result (λ found. IfNone found (FindsFirst self.new.reader.now.core chain None)) }
        ensures some { IfOk result (λ found. IfSome found (λ h. HoldsFirst self.new.reader.now.core chain h.cell)) }
        ensures held { IfOk result (λ found. IfSome found (λ h. MayHoldIn self.new.reader.now.core h.cell)) }
    {
        self.reader.first(chain)
    }

    /// What follows an object that the section holds, and is held from then on too: liburcu's `rcu_dereference` of its
    /// next pointer. It follows the object in the log that the reader has seen at the return: in its chain, or, once it
    /// is cut, behind what it was before.
    pub fn next(&mut self, held: Held) -> Option<Held>
        requires held { MayHoldIn self.old.reader.now.core held.cell }
        ensures reader { self.new.reader.ghost_name ≡ self.old.reader.ghost_name }
        ensures looked { Looks P.QSBR K.allows self.old.reader.now.core self.new.reader.now.core }
        ensures still { MayHoldIn self.new.reader.now.core held.cell }
        ensures none { IfNone result (HoldsLast self.old.reader.now.core self.new.reader.now.core held.cell) }
        ensures held { IfSome result (λ h. MayHoldIn self.new.reader.now.core h.cell) }
        ensures some { IfSome result (λ h. HoldsNext self.old.reader.now.core self.new.reader.now.core held.cell h.cell) }
    {
        self.reader.next(held)
    }

    /// The four words of an object that the section holds: those that were published with it.
    pub fn read(&mut self, held: Held) -> [u64; 4]
        requires held { MayHoldIn self.old.reader.now.core held.cell }
        ensures reader { self.new.reader.ghost_name ≡ self.old.reader.ghost_name }
        ensures looked { Looks P.QSBR K.allows self.old.reader.now.core self.new.reader.now.core }
        ensures still { MayHoldIn self.new.reader.now.core held.cell }
        ensures payload { HasWords self.old.reader.now.core held.cell result }
    {
        self.reader.read(held)
    }

    /// One of the four words of an object that the section holds, the first one at `index` 0: that which was published
    /// with it.
    pub fn read_word(&mut self, held: Held, index: usize) -> u64
        requires index { index < 4 }
        requires held { MayHoldIn self.old.reader.now.core held.cell }
        ensures reader { self.new.reader.ghost_name ≡ self.old.reader.ghost_name }
        ensures looked { Looks P.QSBR K.allows self.old.reader.now.core self.new.reader.now.core }
        ensures still { MayHoldIn self.new.reader.now.core held.cell }
        ensures word { HasWord self.old.reader.now.core held.cell index result }
    {
        self.reader.read_word(held, index)
    }

    /// Ends the section, as dropping it does.
    pub fn close(self)
        ensures { ClosesSection P.QSBR K.allows self.entry.reader.now.core self.exit.0.now.core }
    {
        let _ends = self;
    }
}

impl<'a, P: GracePlan, K: ChainRule, B: Site> Drop for Section<'a, P, K, B> {
    fn drop(self)
        ensures { ClosesSection P.QSBR K.allows self.entry.reader.now.core self.exit.0.now.core }
    {
        let Section { reader } = self;
        reader.leave();
    }
}
