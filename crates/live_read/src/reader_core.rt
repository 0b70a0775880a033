//! Readers that go by their own table.

ghost use Rattle.std.specs.Prelude.{◌≡◌, ◌≢◌, ◌⊎◌, ◌≤◌, ◌+◌, ◌-◌, ◌<◌, ◌↔◌, [], true, false, IfOk, IfErr, IsTrue};
ghost use Rattle.std.specs.Arc.{arc_value};
ghost use Rattle.rcu_model.specs.declared.refusal.Refusal.TheVariants.{NotOpen};
ghost use Rattle.reader_word.specs.declared.layout.Layout.TheVariants.{Wide};
ghost use Rattle.reader_word.specs.Word.{count_of};
ghost use Rattle.live_words.specs.live_rule.Rights.{IsOwner, word_in};

use crate::flavour::Flavour;
use gp_memb::GracePlan;
use live_words::{
    ChainRule, LiveSeat, LiveTable, load_present, store_close, store_inner, store_open,
};
use rcu_model::Refusal;
use reader_word::{Layout, entered, left};
use std::sync::Arc;

/// The greatest depth of nesting.
const GREATEST: u64 = 2_147_483_647;

/// A registered reader of either flavour, which goes by its own table: what a reader does, whoever has it. `Reader` is
/// this with the name of its table. Its seat keeps what its thread has seen.
#[derive(Drop)]
pub struct ReaderCore<P: GracePlan, K: ChainRule> {
    pub(crate) table: Arc<LiveTable<P, K>>,
    /// What it has seen, and its right to its word.
    pub(crate) seat: LiveSeat,
    pub(crate) slot: usize,
    pub(crate) word: u64,
    pub(crate) depth: u64,
    pub(crate) locks: u64,
    pub(crate) flavour: Flavour<P>,
    pub ghost seated: { (seat.table_id ≡ (arc_value table).words.shared.table_id) × (seat.me.0.sizes ≡ (arc_value table).words.shared.key) × (seat.me.1 ≡ []) },
    pub(crate) ghost owns: { IsOwner seat.me.0 slot × (word_in seat.me.0.slot ≡ word) × (slot < (arc_value table).slots) },
    pub ghost counted: { (P.QSBR ≡ false → count_of Wide word ≡ depth) × (P.QSBR ≡ true → word ≡ 0 → depth ≡ 0) × (locks ≤ depth) × (depth ≤ 2147483647) },
}

impl<P: GracePlan, K: ChainRule> ReaderCore<P, K> {
    ghost use Rattle.live_read.specs.Holding.{KeepsTable};
    ghost use Rattle.live_read.specs.Sections.{Announces, BeginsSection, EndsAll, EndsSection, Enters, GoesOffline, GoesOnline, Leaves, MayNotAnnounce, MayNotBegin, MayNotGoOnline};

    /// A reader by a seat that owns a slot whose word is closed.
    pub(crate) fn new(
        table: Arc<LiveTable<P, K>>,
        seat: LiveSeat,
        slot: usize,
        word: u64,
    ) -> ReaderCore<P, K>
        requires table { (seat.table_id ≡ (arc_value table).words.shared.table_id) × (seat.me.0.sizes ≡ (arc_value table).words.shared.key) × (seat.me.1 ≡ []) }
        requires owns { IsOwner seat.me.0 slot × (word_in seat.me.0.slot ≡ word) × (slot < (arc_value table).slots) }
        requires closed { (P.QSBR ≡ false → count_of Wide word ≡ 0) × (P.QSBR ≡ true → word ≡ 0) }
        ensures { (result.seat ≡ seat) × (result.slot ≡ slot) × (result.word ≡ word) × (result.depth ≡ 0) × (result.locks ≡ 0) }
    {
        ReaderCore {
            table,
            seat,
            slot,
            word,
            depth: 0,
            locks: 0,
            flavour: Flavour::new(),
        }
    }

    /// Its slot.
    pub fn slot(&self) -> usize
        ensures { result ≡ self.now.slot }
    {
        self.slot
    }

    /// The word that it stored last.
    pub fn word(&self) -> u64
        ensures { result ≡ self.now.word }
    {
        self.word
    }

    /// How many locks and sections are open.
    pub fn depth(&self) -> u64
        ensures { result ≡ self.now.depth }
    {
        self.depth
    }

    /// How many of these are locks of the standard's face.
    pub fn locks(&self) -> u64
        ensures { result ≡ self.now.locks }
    {
        self.locks
    }

    /// Whether its section of the log is open, liburcu's `rcu_read_ongoing`: in the general-purpose flavour while a
    /// lock or a section is open, and in the quiescent-state flavour while it is online.
    pub fn is_inside(&self) -> bool
        ensures general { P.QSBR ≡ false → IsTrue result ↔ (0 < self.now.depth) }
        ensures quiescent { P.QSBR ≡ true → IsTrue result ↔ (self.now.word ≢ 0) }
    {
        if P::QSBR {
            self.word != 0
        } else {
            self.depth != 0
        }
    }

    // One more section or lock, with this many locks of the standard's face.
    pub(crate) fn enter(&mut self, locks: u64) -> Result<(), Refusal>
        requires { locks ≤ self.old.depth + 1 }
        ensures ok { IfOk result (λ _. BeginsSection P.QSBR K.allows self.old self.new locks) }
        ensures same { IfErr result (λ _. self.new ≡ self.old) }
        ensures err { IfErr result (λ e. MayNotBegin P.QSBR e self.old) }
        ensures table { KeepsTable self.old self.new }
    {
        if P::QSBR && self.word == 0 {
            return Err(Refusal::NotOpen);
        }
        if self.depth == GREATEST {
            return Err(Refusal::NestFull);
        }
        if P::QSBR {
            self.depth = one_more(self.depth);
            self.locks = locks;
        } else if self.depth == 0 {
            self.open_word(locks);
        } else {
            self.nest_word(locks);
        }
        Ok(())
    }

    // The outermost lock of the general-purpose flavour. Its copy of the word is stored before the word, so that a
    // signal handler that locks in between finds a lock that is open, and stays in it.
    fn open_word(&mut self, locks: u64)
        requires flavour { P.QSBR ≡ false }
        requires outermost { (self.old.depth ≡ 0) × (locks ≤ 1) }
        ensures enters { Enters P.QSBR K.allows self.old self.new × (self.new.locks ≡ locks) }
        ensures table { KeepsTable self.old self.new }
    {
        // What is needed after the load is read before it: a compiler keeps it in registers.
        let table: &LiveTable<P, K> = &self.table;
        let slot = self.slot;
        let before = self.word;
        let phase = load_present(table, &mut self.seat);
        let Ok(word) = entered(Layout::Wide, before, phase == 1) else {
            unreachable!()
        };
        self.word = word;
        self.depth = 1;
        self.locks = locks;
        store_open(table, &mut self.seat, slot, word);
    }

    // An inner lock of the general-purpose flavour.
    fn nest_word(&mut self, locks: u64)
        requires flavour { P.QSBR ≡ false }
        requires inner { (0 < self.old.depth) × (self.old.depth < 2147483647) × (locks ≤ self.old.depth + 1) }
        ensures enters { Enters P.QSBR K.allows self.old self.new × (self.new.locks ≡ locks) }
        ensures table { KeepsTable self.old self.new }
    {
        let Ok(word) = entered(Layout::Wide, self.word, false) else {
            unreachable!()
        };
        self.word = word;
        self.depth += 1;
        self.locks = locks;
        store_inner(&self.table, &mut self.seat, self.slot, word);
    }

    // One section or lock less, with this many locks of the standard's face.
    pub(crate) fn leave(&mut self, locks: u64)
        requires { locks < self.old.depth }
        ensures ends { EndsSection P.QSBR K.allows self.old self.new locks }
        ensures table { KeepsTable self.old self.new }
    {
        if P::QSBR {
            self.depth = one_less(self.depth);
            self.locks = locks;
        } else if self.depth == 1 {
            self.close_word(locks);
        } else {
            self.unnest_word(locks);
        }
    }

    // The end of the outermost lock of the general-purpose flavour. Its copy of the word is stored before the word, so
    // that a signal handler that locks in between opens a section of its own.
    fn close_word(&mut self, locks: u64)
        requires flavour { P.QSBR ≡ false }
        requires outermost { (self.old.depth ≡ 1) × (locks < 1) }
        ensures leaves { Leaves P.QSBR K.allows self.old self.new × (self.new.locks ≡ locks) }
        ensures table { KeepsTable self.old self.new }
    {
        let Ok(word) = left(Layout::Wide, self.word) else {
            unreachable!()
        };
        self.word = word;
        self.depth = 0;
        self.locks = locks;
        store_close(&self.table, &mut self.seat, self.slot, word);
    }

    // The end of an inner lock of the general-purpose flavour.
    fn unnest_word(&mut self, locks: u64)
        requires flavour { P.QSBR ≡ false }
        requires inner { (1 < self.old.depth) × (locks < self.old.depth) }
        ensures leaves { Leaves P.QSBR K.allows self.old self.new × (self.new.locks ≡ locks) }
        ensures table { KeepsTable self.old self.new }
    {
        let Ok(word) = left(Layout::Wide, self.word) else {
            unreachable!()
        };
        self.word = word;
        self.depth -= 1;
        self.locks = locks;
        store_inner(&self.table, &mut self.seat, self.slot, word);
    }

    /// Ends all that is open by one store, which closes its section of the log where it is in one: for a thread that is
    /// gone or leaves. In the quiescent-state flavour it is offline then.
    pub fn end(&mut self)
        ensures ends { EndsAll P.QSBR K.allows self.old self.new }
        ensures table { KeepsTable self.old self.new }
    {
        if !self.is_inside() {
            return;
        }
        if P::QSBR {
            self.depth = 0;
            self.locks = 0;
            self.go_offline();
        } else {
            self.end_word();
        }
    }

    // All locks of the general-purpose flavour end.
    fn end_word(&mut self)
        requires { (P.QSBR ≡ false) × (0 < self.old.depth) }
        ensures ends { EndsAll P.QSBR K.allows self.old self.new }
        ensures table { KeepsTable self.old self.new }
    {
        let word = self.word - self.depth;
        self.word = word;
        self.depth = 0;
        self.locks = 0;
        store_close(&self.table, &mut self.seat, self.slot, word);
    }

    /// A lock of the standard's face, [saferecl.rcu.domain.members]: as a section, but that `unlock` ends it.
    ///
    /// Refused as `section`, and then the reader is as it was.
    pub fn lock(&mut self) -> Result<(), Refusal>
        ensures ok { IfOk result (λ _. BeginsSection P.QSBR K.allows self.old self.new (self.old.locks + 1)) }
        ensures same { IfErr result (λ _. self.new ≡ self.old) }
        ensures err { IfErr result (λ e. MayNotBegin P.QSBR e self.old) }
        ensures table { KeepsTable self.old self.new }
    {
        self.enter(self.locks + 1)
    }

    /// Undoes a `lock`. A section is ended by dropping it, and never by this.
    ///
    /// Refused with `NotOpen` exactly where no lock is open, and then the reader is as it was.
    pub fn unlock(&mut self) -> Result<(), Refusal>
        ensures ok { IfOk result (λ _. (0 < self.old.locks) × EndsSection P.QSBR K.allows self.old self.new (self.old.locks - 1)) }
        ensures same { IfErr result (λ _. self.new ≡ self.old) }
        ensures err { IfErr result (λ e. (e ≡ NotOpen) × (self.old.locks ≡ 0)) }
        ensures table { KeepsTable self.old self.new }
    {
        if self.locks == 0 {
            return Err(Refusal::NotOpen);
        }
        self.leave(self.locks - 1);
        Ok(())
    }

    /// An offline reader goes online, liburcu's `rcu_thread_online`, which opens a section of the log.
    ///
    /// Refused with `WrongFlavour` in the general-purpose flavour, else with `Busy` exactly where the reader is online;
    /// then it is as it was.
    pub fn online(&mut self) -> Result<(), Refusal>
        ensures ok { IfOk result (λ _. GoesOnline P.QSBR K.allows self.old self.new) }
        ensures same { IfErr result (λ _. self.new ≡ self.old) }
        ensures err { IfErr result (λ e. MayNotGoOnline P.QSBR e self.old) }
        ensures table { KeepsTable self.old self.new }
    {
        if !P::QSBR {
            return Err(Refusal::WrongFlavour);
        }
        if self.word != 0 {
            return Err(Refusal::Busy);
        }
        let word = live_words::online(&self.table, &mut self.seat, self.slot);
        self.word = word;
        Ok(())
    }

    /// An online reader announces a quiescent state, liburcu's `rcu_quiescent_state`: its section of the log closes,
    /// and the next one opens.
    ///
    /// Refused with `WrongFlavour` in the general-purpose flavour, else with `NotOpen` exactly where the reader is
    /// offline, else with `Busy` exactly while a lock or a section is open; then it is as it was.
    pub fn quiescent(&mut self) -> Result<(), Refusal>
        ensures ok { IfOk result (λ _. Announces P.QSBR K.allows self.old self.new) }
        ensures same { IfErr result (λ _. self.new ≡ self.old) }
        ensures err { IfErr result (λ e. MayNotAnnounce P.QSBR e self.old) }
        ensures table { KeepsTable self.old self.new }
    {
        if !P::QSBR {
            return Err(Refusal::WrongFlavour);
        }
        if self.word == 0 {
            return Err(Refusal::NotOpen);
        }
        if self.depth != 0 {
            return Err(Refusal::Busy);
        }
        let word = live_words::quiescent(&self.table, &mut self.seat, self.slot);
        self.word = word;
        Ok(())
    }

    /// An online reader goes offline, liburcu's `rcu_thread_offline`, which closes its section of the log.
    ///
    /// Refused as `quiescent`, and then the reader is as it was.
    pub fn offline(&mut self) -> Result<(), Refusal>
        ensures ok { IfOk result (λ _. GoesOffline P.QSBR K.allows self.old self.new) }
        ensures same { IfErr result (λ _. self.new ≡ self.old) }
        ensures err { IfErr result (λ e. MayNotAnnounce P.QSBR e self.old) }
        ensures table { KeepsTable self.old self.new }
    {
        if !P::QSBR {
            return Err(Refusal::WrongFlavour);
        }
        if self.word == 0 {
            return Err(Refusal::NotOpen);
        }
        if self.depth != 0 {
            return Err(Refusal::Busy);
        }
        self.go_offline();
        Ok(())
    }

    // An online reader with no section open goes offline.
    fn go_offline(&mut self)
        requires { (P.QSBR ≡ true) × (self.old.word ≢ 0) × (self.old.depth ≡ 0) }
        ensures goes { GoesOffline P.QSBR K.allows self.old self.new }
        ensures table { KeepsTable self.old self.new }
    {
        self.word = 0;
        live_words::offline(&self.table, &mut self.seat, self.slot);
    }
}

// One more section than this many. An outermost one gets a number that stands here, so that a processor need not wait
// for the count that the section before it stored.
fn one_more(depth: u64) -> u64
    requires { depth < 2147483647 }
    ensures { result ≡ depth + 1 }
{
    if depth == 0 { 1 } else { inner_one_more(depth) }
}

#[inline(never)]
fn inner_one_more(depth: u64) -> u64
    requires { depth < 2147483647 }
    ensures { result ≡ depth + 1 }
{
    depth + 1
}

// One section less than this many. What is left of an outermost one is a number that stands here.
fn one_less(depth: u64) -> u64
    requires { 0 < depth }
    ensures { result ≡ depth - 1 }
{
    if depth == 1 { 0 } else { inner_one_less(depth) }
}

#[inline(never)]
fn inner_one_less(depth: u64) -> u64
    requires { 0 < depth }
    ensures { result ≡ depth - 1 }
{
    depth - 1
}
