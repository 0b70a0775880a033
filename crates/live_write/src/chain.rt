//! The one writer of a chain.

ghost use Rattle.std.specs.Prelude.{◌≡◌, ◌≢◌, ◌+◌, ◌^◌, ◌<◌, ◌≤◌, ◌∷◌, ◌++◌, [], Some, length, slice_get, IfErr, IfNone, IfOk, IfSome};
ghost use Rattle.rcu_model.specs.declared.refusal.Refusal.TheVariants.{NoPlace};
ghost use Rattle.rcu_model.specs.Sets.{In};
ghost use Rattle.rcu_model.specs.declared.event.ObjectId.{ObjectId};
ghost use Rattle.live_log.specs.declared.event.LiveEvent.TheVariants.{ChainNote};
ghost use Rattle.live_log.specs.Log.{Begins, IsLiveRun, chain_note, payload_of};
ghost use Rattle.live_words.specs.live_rule.declared.view.Look.TheVariants.{Stored};
ghost use Rattle.live_words.specs.live_rule.Places.{hold_at};
ghost use Rattle.live_words.specs.live_rule.Seats.{lent_chains};
ghost use Rattle.live_words.specs.live_rule.Rights.{AreAsKnown, IsListed, IsWriter, object_in, own_in};
ghost use Rattle.live_read.specs.Hearing.{IsAfter, OnlyHears, OnlyMakesLast, Stays};
ghost use Rattle.live_write.specs.Calls.{GetsNote, GetsObject, HasList, HearsAll, IsCutFrom, IsHad, IsNotHad, LosesObject, MayCut, MayPush, MayReplace, MayReserveFor, OnlyLearns, OnlyLooksIn, PublishesCut, PublishesPush, PublishesReplace, PublishesReservation, TakesIn, reservation};
ghost use Rattle.live_write.specs.Chains.{IsFirstWith, MayPublish, Publishes, first_word, list_in};

use crate::lending::{Lent, take_right};
use crate::publish::{
    cut_record, hear_caller, push_record, replace_record, write_note, write_reservation,
};
use crate::records::{Owned, Unlinked};
use crate::walk::{count, read, seek};
use gp_memb::GracePlan;
use live_read::{Caller, Site};
use live_words::{ChainRule, LiveSeat, LiveTable, free_chain, hold_chain, load_note};
use rcu_model::{ObjectId, Refusal};
use std::marker::PhantomData;

/// The one writer of a chain, which was taken of an `H`: a domain. Dropping it gives the chain back: its hold word
/// becomes 0.
pub struct Chain<'d, P: GracePlan, K: ChainRule, B: Site, H> {
    /// What it was taken of.
    pub home: &'d H,
    pub(crate) table: &'d LiveTable<P, K>,
    // What it has seen, and its right to the chain, whose objects it knows.
    pub(crate) seat: LiveSeat,
    /// The chain's number.
    pub number: usize,
    // How many objects the chain links.
    pub(crate) linked: usize,
    pub(crate) site: PhantomData<B>,
    pub(crate) ghost seated: { (seat.table_id ≡ B.table) × (table.now.words.shared.table_id ≡ B.table) × (seat.me.0.sizes ≡ B.sizes) × (table.now.words.shared.key ≡ B.sizes) × (seat.me.1 ≡ []) },
    pub ghost owns: { IsWriter seat.me.0 × IsListed seat.me.0 × ((own_in seat.me.0.chains).chain ≡ number) },
    pub(crate) ghost low: { number < table.now.chains },
    pub(crate) ghost counted: { linked ≡ length (list_in seat.me.0) },
}

impl<'d, P: GracePlan, K: ChainRule, B: Site, H> Chain<'d, P, K, B, H> {
    /// Takes the right to write a chain, if nobody has it, and counts its objects by a walk. The caller hears of what
    /// was seen at the taking; the writer knows the list and the note of the log that it has seen, and no other chain.
    ///
    /// Refused with `NoPlace` exactly where there is no such chain, else with `Busy` exactly where its hold word was
    /// found to be 1, which `looks` tells.
    pub fn hold<W: Caller<B>>(
        home: &'d H,
        table: &'d LiveTable<P, K>,
        caller: &mut W,
        chain: usize,
    ) -> Result<Chain<'d, P, K, B, H>, Refusal>
        requires site { (table.now.words.shared.table_id ≡ B.table) × (table.now.words.shared.key ≡ B.sizes) }
        ensures held { IfOk result (λ c. IsHad W.Caller B.sizes chain caller.old caller.new c.number c.seat.me.0.seen) }
        ensures home { IfOk result (λ c. c.home.now ≡ home.now) }
        ensures run { IfOk result (λ c. IsLiveRun P.QSBR K.allows c.seat.me.0.seen × (lent_chains c.seat.me.0.chains ≡ [])) }
        ensures refused { IfErr result (λ e. IsNotHad W.Caller B.sizes chain caller.old caller.new e) }
        ensures heard { chain < B.sizes.chains → IsAfter P.QSBR K.allows (W.seen caller.old) (W.heard caller.old) (W.heard caller.new) }
        ensures same { Stays W.Caller caller.old caller.new × (W.loads caller.new ≡ W.loads caller.old) }
    {
        if chain >= table.chains {
            return Err(Refusal::NoPlace);
        }
        let mut told = caller.tell(table);
        let found = hold_chain(table, &mut told, chain);
        if found != 0 {
            caller.learn(table, told);
            return Err(Refusal::Busy);
        }
        let mut seat = table.cut_chains(&mut told);
        caller.learn(table, told);
        let linked = count(table, &mut seat, chain);
        Ok(Chain {
            home,
            table,
            seat,
            number: chain,
            linked,
            site: PhantomData,
        })
    }

    /// The chain's number.
    pub fn number(&self) -> usize
        ensures number { result ≡ self.now.number }
        ensures low { result < B.sizes.chains }
    {
        self.number
    }

    /// What the chain was taken of: its domain.
    pub fn domain(&self) -> &'d H
        ensures { result.now ≡ self.now.home.now }
    {
        self.home
    }

    /// How many objects the chain links, by the list that its writer knows.
    pub fn len(&self) -> usize
        ensures { result ≡ length (list_in self.now.seat.me.0) }
    {
        self.linked
    }

    /// The object of a record becomes the first of the chain, liburcu's `cds_list_add_rcu`: its link is stored, and
    /// then the head. The event comes after all that the caller and who allocated the record had seen, and the caller
    /// hears of it. The chain's rule has to allow it wherever it may come.
    pub fn push<W: Caller<B>>(&mut self, caller: &mut W, owned: Owned<B>) -> ObjectId
        requires rule { MayPush W.Caller P.QSBR K.allows caller.old self.old.seat.me.0 owned.seat.me.0 }
        ensures object { result ≡ object_in owned.seat.me.0.object }
        ensures list { HasList self.old.seat self.new.seat self.old.number self.new.number self.old.home.now self.new.home.now (result ∷ list_in self.old.seat.me.0) }
        ensures pushed { PublishesPush W.Caller P.QSBR K.allows caller.old self.old.seat.me.0 owned.seat.me.0 self.new.seat.me.0.seen }
        ensures heard { W.heard caller.new ≡ self.new.seat.me.0.seen }
        ensures same { OnlyMakesLast W.Caller caller.old caller.new self.new.seat.me.0.seen }
    {
        let object = owned.object();
        let Owned { seat, cell, .. } = owned;
        push_record(self.table, &mut self.seat, self.number, caller, seat, cell);
        self.linked += 1;
        object
    }

    /// The payload of the object at an index, by the list that the writer knows: the four words that `alloc` was given.
    /// None exactly where the index is not below the length. It walks from the head.
    pub fn get(&mut self, index: usize) -> Option<[u64; 4]>
        ensures some { IfSome result (λ words. (o : ObjectId) × (slice_get (list_in self.old.seat.me.0) index ≡ Some o) × (words ≡ payload_of self.new.seat.me.0.seen o)) }
        ensures walked { IfSome result (λ _. OnlyLooksIn P.QSBR K.allows self.old.seat self.new.seat self.old.number self.new.number self.old.home.now self.new.home.now) }
        ensures none { IfNone result ((length (list_in self.old.seat.me.0) ≤ index) × (self.new ≡ self.old)) }
    {
        if index >= self.linked {
            return None;
        }
        Some(read(self.table, &mut self.seat, self.number, index))
    }

    /// The index of the first object whose payload begins with this word, by the list that the writer knows: None
    /// exactly where none does. It walks from the head, and loads one word of each object.
    pub fn index_of(&mut self, word: u64) -> Option<usize>
        ensures found { IfSome result (λ index. IsFirstWith self.new.seat.me.0.seen (list_in self.old.seat.me.0) word index) }
        ensures none { IfNone result ((o : ObjectId) → In (list_in self.old.seat.me.0) o → first_word self.new.seat.me.0.seen o ≢ word) }
        ensures walked { OnlyLooksIn P.QSBR K.allows self.old.seat self.new.seat self.old.number self.new.number self.old.home.now self.new.home.now }
    {
        seek(self.table, &mut self.seat, self.number, word)
    }

    /// The object at an index leaves the chain, liburcu's `cds_list_del_rcu`, after a walk to it: what led to it leads
    /// to what follows it, and its own link stays. The event comes after all that the caller had seen, and the caller
    /// hears of it. The chain's rule has to allow it wherever it may come.
    ///
    /// Refused with `NoPlace` exactly where the index is not below the length, and then nothing changes.
    pub fn cut<W: Caller<B>>(
        &mut self,
        caller: &mut W,
        index: usize,
    ) -> Result<Unlinked<B>, Refusal>
        requires rule { MayCut W.Caller P.QSBR K.allows caller.old self.old.seat.me.0 index }
        ensures object { IfOk result (λ u. IsCutFrom self.old.seat self.new.seat self.old.number index u.seat u.chain) }
        ensures list { IfOk result (λ u. LosesObject self.old.seat self.new.seat self.old.number self.new.number self.old.home.now self.new.home.now u.seat) }
        ensures cut { IfOk result (λ u. PublishesCut W.Caller P.QSBR K.allows caller.old self.old.seat.me.0 u.seat.me.0 self.new.seat.me.0.seen) }
        ensures heard { IfOk result (λ _. W.heard caller.new ≡ self.new.seat.me.0.seen) }
        ensures refused { IfErr result (λ e. (e ≡ NoPlace) × (length (list_in self.old.seat.me.0) ≤ index) × (self.new ≡ self.old) × (caller.new ≡ caller.old)) }
        ensures same { IfOk result (λ _. OnlyMakesLast W.Caller caller.old caller.new self.new.seat.me.0.seen) }
    {
        if index >= self.linked {
            return Err(Refusal::NoPlace);
        }
        let (seat, cell) = cut_record(self.table, &mut self.seat, self.number, caller, index);
        self.linked -= 1;
        Ok(Unlinked::of(seat, cell, self.number))
    }

    /// The object of a record takes the place of the one at an index, liburcu's `cds_list_replace_rcu`, after a walk to
    /// it: the new one's link is stored, and then what led to the old one leads to the new one. The event comes after
    /// all that the caller and who allocated the record had seen, and the caller hears of it. The chain's rule has to
    /// allow it wherever it may come.
    ///
    /// Refused with `NoPlace` exactly where the index is not below the length; then nothing changes, and the record
    /// comes back.
    pub fn replace<W: Caller<B>>(
        &mut self,
        caller: &mut W,
        index: usize,
        owned: Owned<B>,
    ) -> Result<Unlinked<B>, (Refusal, Owned<B>)>
        requires rule { MayReplace W.Caller P.QSBR K.allows caller.old self.old.seat.me.0 index owned.seat.me.0 }
        ensures object { IfOk result (λ u. IsCutFrom self.old.seat self.new.seat self.old.number index u.seat u.chain) }
        ensures list { IfOk result (λ u. GetsObject self.old.seat self.new.seat self.old.number self.new.number self.old.home.now self.new.home.now u.seat owned.seat) }
        ensures replaced { IfOk result (λ u. PublishesReplace W.Caller P.QSBR K.allows caller.old self.old.seat.me.0 u.seat.me.0 owned.seat.me.0 self.new.seat.me.0.seen) }
        ensures heard { IfOk result (λ _. W.heard caller.new ≡ self.new.seat.me.0.seen) }
        ensures refused { IfErr result (λ e. (e.0 ≡ NoPlace) × (e.1 ≡ owned) × (length (list_in self.old.seat.me.0) ≤ index) × (self.new ≡ self.old) × (caller.new ≡ caller.old)) }
        ensures same { IfOk result (λ _. OnlyMakesLast W.Caller caller.old caller.new self.new.seat.me.0.seen) }
    {
        if index >= self.linked {
            return Err((Refusal::NoPlace, owned));
        }
        let Owned { seat, cell, .. } = owned;
        let (left, was) = replace_record(
            self.table,
            &mut self.seat,
            self.number,
            caller,
            index,
            seat,
            cell,
        );
        Ok(Unlinked::of(left, was, self.number))
    }

    /// The chain's note, which this writer alone may change: that of the log that it has seen at the return.
    pub fn note(&mut self) -> u64
        ensures note { (result ≡ (own_in self.old.seat.me.0.chains).note) × (result ≡ chain_note self.old.number self.new.seat.me.0.seen) }
        ensures looked { OnlyLooksIn P.QSBR K.allows self.old.seat self.new.seat self.old.number self.new.number self.old.home.now self.new.home.now }
    {
        load_note(self.table, &mut self.seat, self.number)
    }

    /// The writer sees all that the caller has seen and heard of, by a load of the chain's note, and the caller hears
    /// of what the writer has seen then. So the list and the note that the writer knows are those of a log that comes
    /// after all that its caller knew.
    pub fn hear<W: Caller<B>>(&mut self, caller: &mut W)
        ensures chains { (self.new.seat.me.0.chains ≡ self.old.seat.me.0.chains) × (self.new.number ≡ self.old.number) × (self.new.home.now ≡ self.old.home.now) }
        ensures learned { OnlyLearns P.QSBR K.allows self.old.seat self.new.seat self.old.number self.new.number }
        ensures told { HearsAll W.Caller P.QSBR K.allows caller.old self.old.seat.me.0 self.new.seat.me.0.seen }
        ensures known { AreAsKnown self.new.seat.me.0.seen self.new.seat.me.0.chains }
        ensures heard { W.heard caller.new ≡ self.new.seat.me.0.seen }
        ensures same { OnlyHears W.Caller caller.old caller.new }
    {
        hear_caller(self.table, &mut self.seat, self.number, caller);
    }

    /// The chain's note becomes this one. The note comes after all that the caller had seen, and the caller hears of
    /// it. The chain's rule has to allow it wherever it may come.
    pub fn set_note<W: Caller<B>>(&mut self, caller: &mut W, note: u64)
        requires rule { MayPublish P.QSBR K.allows self.old.seat.me.0 (W.seen caller.old) (W.heard caller.old) [] (ChainNote self.old.number note) }
        ensures note { GetsNote self.old.seat self.new.seat self.old.number self.new.number self.old.home.now self.new.home.now note }
        ensures noted { Publishes P.QSBR K.allows self.old.seat.me.0 (W.seen caller.old) (W.heard caller.old) [] (ChainNote self.old.number note) self.new.seat.me.0.seen }
        ensures heard { W.heard caller.new ≡ self.new.seat.me.0.seen }
        ensures same { OnlyMakesLast W.Caller caller.old caller.new self.new.seat.me.0.seen }
    {
        write_note(self.table, &mut self.seat, self.number, caller, note);
    }

    /// The chain is reserved for the object of a record, which no chain has linked: its note becomes 2^63 and the
    /// object's number. The record comes back, for other chains and for a push. The note comes after all that the
    /// caller and who allocated the record had seen, and the caller hears of it. The chain's rule has to allow it
    /// wherever it may come.
    pub fn reserve<W: Caller<B>>(&mut self, caller: &mut W, owned: Owned<B>) -> Owned<B>
        requires rule { MayReserveFor W.Caller P.QSBR K.allows caller.old self.old.seat.me.0 owned.seat.me.0 self.old.number }
        ensures note { GetsNote self.old.seat self.new.seat self.old.number self.new.number self.old.home.now self.new.home.now (reservation owned.seat.me.0) }
        ensures noted { PublishesReservation W.Caller P.QSBR K.allows caller.old self.old.seat.me.0 owned.seat.me.0 self.old.number self.new.seat.me.0.seen }
        ensures owned { (result.seat.me.0.object ≡ owned.seat.me.0.object) × (result.seat.me.0.seen ≡ self.new.seat.me.0.seen) }
        ensures heard { W.heard caller.new ≡ self.new.seat.me.0.seen }
        ensures same { OnlyMakesLast W.Caller caller.old caller.new self.new.seat.me.0.seen }
    {
        let Owned {
            seat,
            cell,
            number,
            ..
        } = owned;
        let seat = write_reservation(
            self.table,
            &mut self.seat,
            self.number,
            caller,
            seat,
            number,
        );
        Owned {
            seat,
            cell,
            number,
            site: PhantomData,
        }
    }

    /// Lends the chain's right to another chain's writer, behind those that were lent to that before. That writer has
    /// seen then all that this one had, and knows this chain's list and note in each log in which it publishes until
    /// they are taken back.
    pub fn lend(self, to: &mut Chain<'_, P, K, B, H>) -> Lent<'d, P, K, B, H>
        requires { lent_chains self.seat.me.0.chains ≡ [] }
        ensures lent { (result.number ≡ self.entry.number) × (result.linked ≡ length (list_in self.entry.seat.me.0)) × (result.home.now ≡ self.entry.home.now) }
        ensures chains { TakesIn to.old.seat to.new.seat to.old.number to.new.number to.old.home.now to.new.home.now (to.old.seat.me.0.chains ++ own_in self.entry.seat.me.0.chains ∷ []) }
        ensures known { AreAsKnown to.new.seat.me.0.seen to.new.seat.me.0.chains }
        ensures later { Begins to.old.seat.me.0.seen to.new.seat.me.0.seen × Begins self.entry.seat.me.0.seen to.new.seat.me.0.seen × IsLiveRun P.QSBR K.allows to.new.seat.me.0.seen }
    {
        let Chain {
            home,
            table,
            seat,
            number,
            linked,
            site,
        } = self;
        take_right(to.table, &mut to.seat, to.number, seat);
        Lent {
            home,
            table,
            number,
            linked,
            site,
        }
    }

    /// Gives the chain back, as dropping it does, and tells its caller: its hold word becomes 0, which `looks` tells.
    /// The caller hears of all that the writer had seen.
    pub fn release<W: Caller<B>>(self, caller: &mut W)
        ensures freed { W.looks caller.new ≡ Stored (hold_at B.sizes self.entry.number) 0 ∷ W.looks caller.old }
        ensures heard { IsAfter P.QSBR K.allows (W.seen caller.old) (W.heard caller.old) (W.heard caller.new) × Begins self.entry.seat.me.0.seen (W.heard caller.new) }
        ensures same { Stays W.Caller caller.old caller.new × (W.loads caller.new ≡ W.loads caller.old) }
    {
        let Chain {
            home: _,
            table,
            mut seat,
            number,
            linked: _,
            site: _,
        } = self;
        hear_caller(table, &mut seat, number, caller);
        let mut right = table.cut_chains(&mut seat);
        free_chain(table, &mut right, number);
        caller.learn(table, right);
    }
}

impl<'d, P: GracePlan, K: ChainRule, B: Site, H> Drop for Chain<'d, P, K, B, H> {
    fn drop(self) {
        let Chain {
            home: _,
            table,
            mut seat,
            number,
            linked: _,
            site: _,
        } = self;
        free_chain(table, &mut seat, number);
    }
}
