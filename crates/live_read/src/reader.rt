//! Readers that bear the name of their table.

ghost use Rattle.std.specs.Prelude.{◌≡◌, ◌≢◌, ◌⊎◌, ◌↔◌, ◌≤◌, ◌+◌, ◌-◌, ◌<◌, [], true, false, None, IfOk, IfErr, IfSome, IfNone, IsTrue, MatchBool};
ghost use Rattle.std.specs.Arc.{arc_value};
ghost use Rattle.rcu_model.specs.declared.refusal.Refusal.TheVariants.{NoPlace, NotOpen};
ghost use Rattle.reader_word.specs.declared.layout.Layout.TheVariants.{Wide};
ghost use Rattle.reader_word.specs.Word.{count_of};
ghost use Rattle.live_words.specs.live_rule.Rights.{IsOwner, count_in, word_in};

use crate::caller::Caller;
use crate::held::Held;
use crate::reader_core::ReaderCore;
use crate::searches::Searches;
use crate::section::Section;
use crate::site::Site;
use crate::telling::tell_all;
use gp_memb::GracePlan;
use live_words::{ChainRule, LiveSeat, LiveTable};
use rcu_model::Refusal;
use std::marker::PhantomData;
use std::sync::Arc;

/// A registered reader of the table `B`.
#[derive(Drop)]
pub struct Reader<P: GracePlan, K: ChainRule, B: Site> {
    /// What it is and does, by its own table.
    pub(crate) core: ReaderCore<P, K>,
    pub(crate) searches: Searches,
    pub(crate) site: PhantomData<B>,
    pub ghost named: { (core.seat.table_id ≡ B.table) × (core.seat.me.0.sizes ≡ B.sizes) },
}

impl<P: GracePlan, K: ChainRule, B: Site> Reader<P, K, B> {
    ghost use Rattle.std.specs.Borrow.{sem, RestsIfErr};
    ghost use Rattle.live_read.specs.Hearing.{IsAfter, IsAsBefore};
    ghost use Rattle.live_read.specs.contracts.reader.Reader.{the_row};
    ghost use Rattle.live_read.specs.Holding.{MayHoldIn};
    ghost use Rattle.live_read.specs.Reads.{FindsFirst, HasWord, HasWords, HoldsFirst, HoldsLast, HoldsNext, Looks};
    ghost use Rattle.live_read.specs.Sections.{Announces, BeginsSection, ClosesSection, EndsSection, GoesOffline, GoesOnline, CannotOpen, MayNotAnnounce, MayNotBegin, MayNotGoOnline};

    /// This reader, with the name of its table, and what its searches begin by.
    pub(crate) fn of(core: ReaderCore<P, K>, searches: Searches) -> Reader<P, K, B>
        requires { (core.seat.table_id ≡ B.table) × (core.seat.me.0.sizes ≡ B.sizes) }
        ensures { result.core ≡ core }
    {
        Reader {
            core,
            searches,
            site: PhantomData,
        }
    }

    /// Its slot.
    pub fn slot(&self) -> usize
        ensures { result ≡ self.now.core.slot }
    {
        self.core.slot()
    }

    /// The word that it stored last.
    pub fn word(&self) -> u64
        ensures { result ≡ self.now.core.word }
    {
        self.core.word()
    }

    /// How many locks and sections are open.
    pub fn depth(&self) -> u64
        ensures { result ≡ self.now.core.depth }
    {
        self.core.depth()
    }

    /// Whether its section of the log is open, liburcu's `rcu_read_ongoing`: in the general-purpose flavour while a lock
    /// or a section is open, and in the quiescent-state flavour while it is online.
    pub fn is_inside(&self) -> bool
        ensures general { P.QSBR ≡ false → IsTrue result ↔ (0 < self.now.core.depth) }
        ensures quiescent { P.QSBR ≡ true → IsTrue result ↔ (self.now.core.word ≢ 0) }
    {
        self.core.is_inside()
    }

    // One more section or lock, with this many locks of the standard's face.
    fn enter(&mut self, locks: u64) -> Result<(), Refusal>
        requires { locks ≤ self.old.core.depth + 1 }
        ensures ok { IfOk result (λ _. BeginsSection P.QSBR K.allows self.old.core self.new.core locks) }
        ensures same { IfErr result (λ _. self.new ≡ self.old) }
        ensures err { IfErr result (λ e. MayNotBegin P.QSBR e self.old.core) }
    {
        self.core.enter(locks)
    }

    // A section's end. It never waits.
    pub(crate) fn leave(&mut self)
        requires { self.old.core.locks < self.old.core.depth }
        ensures { ClosesSection P.QSBR K.allows self.old.core self.new.core }
    {
        let locks = self.core.locks;
        self.core.leave(locks)
    }

    /// A read-side section, which is an inner one where the reader is in one, as by liburcu's `rcu_read_lock`. In the
    /// quiescent-state flavour it is a count, and no step of the table. What the outer one may hold it may hold in the
    /// inner one, and after its end.
    ///
    /// Refused with `NestFull` exactly at the greatest depth, 2,147,483,647, and with `NotOpen` where the reader is of
    /// the quiescent-state flavour and offline; then the reader is as it was.
    pub fn section(&mut self) -> Result<Section<'_, P, K, B>, Refusal>
        // An assertion, and no fact as in `lock`: the result may hold the reader, which then has no value at the return.
        ensures* refused { sem 𝓛 (RestsIfErr (the_row P.row K.row B.row P.GracePlan B.Site K.ChainRule) self.entry (λ s. s.reader.ghost_name) result (λ last. last ≡ self.old)) }
        ensures same { IfOk result (λ s. s.reader.ghost_name ≡ self.entry.ghost_name) }
        ensures inside { IfOk result (λ s. BeginsSection P.QSBR K.allows self.old.core s.reader.now.core self.old.core.locks) }
        ensures err { IfErr result (λ e. MayNotBegin P.QSBR e self.old.core) }
    {
        self.enter(self.core.locks)?;
        Ok(Section::of(self))
    }

    /// A lock of the standard's face, [saferecl.rcu.domain.members]: as a section, but that `unlock` ends it.
    ///
    /// Refused as `section`, and then the reader is as it was.
    pub fn lock(&mut self) -> Result<(), Refusal>
        ensures ok { IfOk result (λ _. BeginsSection P.QSBR K.allows self.old.core self.new.core (self.old.core.locks + 1)) }
        ensures same { IfErr result (λ _. self.new ≡ self.old) }
        ensures err { IfErr result (λ e. MayNotBegin P.QSBR e self.old.core) }
    {
        self.core.lock()
    }

    /// Whether `lock` succeeds; if so it is locked, and else the reader is as it was.
    pub fn try_lock(&mut self) -> bool
        ensures { MatchBool result (BeginsSection P.QSBR K.allows self.old.core self.new.core (self.old.core.locks + 1)) ((self.new ≡ self.old) × CannotOpen P.QSBR self.old.core) }
    {
        self.lock().is_ok()
    }

    /// Undoes a `lock`. A section is ended by dropping it, and never by this.
    ///
    /// Refused with `NotOpen` exactly where no lock is open, and then the reader is as it was.
    pub fn unlock(&mut self) -> Result<(), Refusal>
        ensures ok { IfOk result (λ _. (0 < self.old.core.locks) × EndsSection P.QSBR K.allows self.old.core self.new.core (self.old.core.locks - 1)) }
        ensures same { IfErr result (λ _. self.new ≡ self.old) }
        ensures err { IfErr result (λ e. (e ≡ NotOpen) × (self.old.core.locks ≡ 0)) }
    {
        self.core.unlock()
    }

    /// An offline reader goes online, liburcu's `rcu_thread_online`, which opens a section of the log.
    ///
    /// Refused with `WrongFlavour` in the general-purpose flavour, else with `Busy` exactly where the reader is online;
    /// then it is as it was.
    pub fn online(&mut self) -> Result<(), Refusal>
        ensures ok { IfOk result (λ _. GoesOnline P.QSBR K.allows self.old.core self.new.core) }
        ensures same { IfErr result (λ _. self.new ≡ self.old) }
        ensures err { IfErr result (λ e. MayNotGoOnline P.QSBR e self.old.core) }
    {
        self.core.online()
    }

    /// An online reader announces a quiescent state, liburcu's `rcu_quiescent_state`: its section of the log closes,
    /// and the next one opens.
    ///
    /// Refused with `WrongFlavour` in the general-purpose flavour, else with `NotOpen` exactly where the reader is
    /// offline, else with `Busy` exactly while a lock or a section is open; then it is as it was.
    pub fn quiescent(&mut self) -> Result<(), Refusal>
        ensures ok { IfOk result (λ _. Announces P.QSBR K.allows self.old.core self.new.core) }
        ensures same { IfErr result (λ _. self.new ≡ self.old) }
        ensures err { IfErr result (λ e. MayNotAnnounce P.QSBR e self.old.core) }
    {
        self.core.quiescent()
    }

    /// An online reader goes offline, liburcu's `rcu_thread_offline`, which closes its section of the log.
    ///
    /// Refused as `quiescent`, and then the reader is as it was.
    pub fn offline(&mut self) -> Result<(), Refusal>
        ensures ok { IfOk result (λ _. GoesOffline P.QSBR K.allows self.old.core self.new.core) }
        ensures same { IfErr result (λ _. self.new ≡ self.old) }
        ensures err { IfErr result (λ e. MayNotAnnounce P.QSBR e self.old.core) }
    {
        self.core.offline()
    }

    /// The first object of a chain, which the reader holds from then on, in the lock or section that is open.
    ///
    /// Refused with `NoPlace` exactly where there is no such chain, and then the reader is as it was.
    pub fn first(&mut self, chain: usize) -> Result<Option<Held>, Refusal>
        requires { 0 < self.old.core.depth }
        ensures refused { IfErr result (λ e. (e ≡ NoPlace) × (B.sizes.chains ≤ chain) × (self.new ≡ self.old)) }
        ensures looked { IfOk result (λ _. (chain < B.sizes.chains) × Looks P.QSBR K.allows self.old.core self.new.core) }
        ensures none { IfOk result (λ found. IfNone found (FindsFirst self.new.core chain None)) }
        ensures some { IfOk result (λ found. IfSome found (λ h. HoldsFirst self.new.core chain h.cell)) }
        ensures held { IfOk result (λ found. IfSome found (λ h. MayHoldIn self.new.core h.cell)) }
    {
        self.core.first(chain)
    }

    /// What follows an object that the reader holds, and is held from then on too.
    pub fn next(&mut self, held: Held) -> Option<Held>
        requires open_section { 0 < self.old.core.depth }
        requires held { MayHoldIn self.old.core held.cell }
        ensures looked { Looks P.QSBR K.allows self.old.core self.new.core }
        ensures still { MayHoldIn self.new.core held.cell }
        ensures none { IfNone result (HoldsLast self.old.core self.new.core held.cell) }
        ensures held { IfSome result (λ h. MayHoldIn self.new.core h.cell) }
        ensures some { IfSome result (λ h. HoldsNext self.old.core self.new.core held.cell h.cell) }
    {
        self.core.next(held)
    }

    /// One of the four words of an object that the reader holds.
    pub fn read_word(&mut self, held: Held, index: usize) -> u64
        requires open_section { (0 < self.old.core.depth) × (index < 4) }
        requires held { MayHoldIn self.old.core held.cell }
        ensures looked { Looks P.QSBR K.allows self.old.core self.new.core }
        ensures still { MayHoldIn self.new.core held.cell }
        ensures word { HasWord self.old.core held.cell index result }
    {
        self.core.read_word(held, index)
    }

    /// The four words of an object that the reader holds.
    pub fn read(&mut self, held: Held) -> [u64; 4]
        requires open_section { 0 < self.old.core.depth }
        requires held { MayHoldIn self.old.core held.cell }
        ensures looked { Looks P.QSBR K.allows self.old.core self.new.core }
        ensures still { MayHoldIn self.new.core held.cell }
        ensures payload { HasWords self.old.core held.cell result }
    {
        self.core.read(held)
    }
}
