//! Records that no chain links.

ghost use Rattle.std.specs.Prelude.{◌≡◌, ◌<◌, ◌≤◌, ◌^◌, []};
ghost use Rattle.live_words.specs.live_rule.Rights.{IsFresh, IsUnlinked, cell_in, object_in};

use gp_memb::GracePlan;
use live_read::{Caller, Site, tell_all};
use live_words::{ChainRule, LiveSeat, LiveTable, load_number, load_payload};
use rcu_model::ObjectId;
use std::marker::PhantomData;

/// A record that no chain has linked yet, with its object and its four words. Where it is dropped, its record stays out
/// of use as long as the table lives; `discard` frees it.
#[derive(Drop)]
pub struct Owned<B: Site> {
    // What was seen at the allocation, and the right to the record.
    pub(crate) seat: LiveSeat,
    pub(crate) cell: usize,
    pub(crate) number: u64,
    pub(crate) site: PhantomData<B>,
    pub ghost seated: { (seat.table_id ≡ B.table) × (seat.me.0.sizes ≡ B.sizes) × (seat.me.1 ≡ []) },
    pub ghost fresh: { IsFresh seat.me.0 × (cell_in seat.me.0.object ≡ cell) × (cell < B.sizes.pool) × (object_in seat.me.0.object ≡ record { 0 = number }) × (number < 2 ^ 62) },
}

impl<B: Site> Owned<B> {
    /// Its object, which it keeps once a chain links it.
    pub fn object(&self) -> ObjectId
        ensures { result ≡ object_in self.now.seat.me.0.object }
    {
        ObjectId(self.number)
    }
}

/// A record that a chain linked and that was cut: sections that are open may still hold its object. Where it is
/// dropped, its record stays out of use as long as the table lives.
#[derive(Drop)]
pub struct Unlinked<B: Site> {
    // What was seen at the cut, and the right to the record.
    pub(crate) seat: LiveSeat,
    pub(crate) cell: usize,
    // The chain that linked it.
    pub(crate) chain: usize,
    pub(crate) site: PhantomData<B>,
    pub ghost seated: { (seat.table_id ≡ B.table) × (seat.me.0.sizes ≡ B.sizes) × (seat.me.1 ≡ []) },
    pub ghost unlinked: { IsUnlinked seat.me.0 × (cell_in seat.me.0.object ≡ cell) × (cell < B.sizes.pool) },
}

impl<B: Site> Unlinked<B> {
    ghost use Rattle.live_words.specs.live_rule.Steps.{Keeps};
    ghost use Rattle.live_read.specs.Hearing.{IsAfter, OnlyHears};
    ghost use Rattle.live_write.specs.Calls.{IsUnretired, KeepsRight, LoadsHeader};

    /// Of a seat with the right to it.
    pub(crate) fn of(seat: LiveSeat, cell: usize, chain: usize) -> Unlinked<B>
        requires site { (seat.table_id ≡ B.table) × (seat.me.0.sizes ≡ B.sizes) × (seat.me.1 ≡ []) }
        requires right { IsUnlinked seat.me.0 × (cell_in seat.me.0.object ≡ cell) × (cell < B.sizes.pool) }
        ensures { (result.seat ≡ seat) × (result.chain ≡ chain) }
    {
        Unlinked {
            seat,
            cell,
            chain,
            site: PhantomData,
        }
    }

    /// The chain that linked it.
    pub fn chain(&self) -> usize
        ensures { result ≡ self.now.chain }
    {
        self.chain
    }

    /// The seat with the right to it, and its record.
    pub fn into_parts(self) -> (LiveSeat, usize)
        ensures seat { (result.0 ≡ self.seat) × (result.0.table_id ≡ B.table) × (result.0.me.0.sizes ≡ B.sizes) × (result.0.me.1 ≡ []) }
        ensures right { IsUnlinked result.0.me.0 × (cell_in result.0.me.0.object ≡ result.1) × (result.1 < B.sizes.pool) }
    {
        (self.seat, self.cell)
    }

    /// Its object, by a load of its record's header, which is kept among the looks of its seat.
    pub fn object<P: GracePlan, K: ChainRule>(&mut self, table: &LiveTable<P, K>) -> ObjectId
        requires { (table.now.words.shared.table_id ≡ B.table) × (table.now.words.shared.key ≡ B.sizes) }
        ensures object { result ≡ object_in self.old.seat.me.0.object }
        ensures chain { self.new.chain ≡ self.old.chain }
        ensures seat { Keeps self.old.seat self.new.seat }
        ensures looked { LoadsHeader P.QSBR K.allows B.sizes result.0 self.old.seat.me self.new.seat.me }
    {
        ObjectId(load_number(table, &mut self.seat, self.cell))
    }

    /// The caller hears of a log in which the object is not retired, by a load of the record's first word. The log comes
    /// after all that the caller had seen and heard of.
    pub fn hear<P: GracePlan, K: ChainRule, W: Caller<B>>(
        &mut self,
        table: &LiveTable<P, K>,
        caller: &mut W,
    )
        requires { (table.now.words.shared.table_id ≡ B.table) × (table.now.words.shared.key ≡ B.sizes) }
        ensures unretired { IsUnretired (object_in self.old.seat.me.0.object) (W.heard caller.new) }
        ensures heard { IsAfter P.QSBR K.allows (W.seen caller.old) (W.heard caller.old) (W.heard caller.new) }
        ensures right { KeepsRight self.old.seat.me.0 self.new.seat.me.0 × (self.new.chain ≡ self.old.chain) }
        ensures same { OnlyHears W.Caller caller.old caller.new }
    {
        let told = tell_all(table, caller);
        table.learn(&mut self.seat, told);
        load_payload(table, &mut self.seat, self.cell, 0);
        let heard = table.tell(&mut self.seat);
        caller.learn(table, heard);
    }
}
