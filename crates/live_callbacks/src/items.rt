//! What lies under a queue's lock.
ghost use Rattle.std.specs.Prelude.{◌≡◌, ◌≢◌, ◌⊎◌, ◌+◌, ◌-◌, ◌<◌, ◌≤◌, ◌^◌, ◌∷◌, [], vec_capacity, vec_len, true, false, IfErr, IfOk, IsOk};
ghost use Rattle.rcu_model.specs.declared.refusal.Refusal.TheVariants.{Closed, Memory};
ghost use Rattle.rcu_model.specs.declared.event.ObjectId.{ObjectId};
ghost use Rattle.callback_queue.specs.Queue.{closed_queue, empty_queue, given_of, with_place};
ghost use Rattle.live_log.specs.declared.event.LiveEvent.TheVariants.{CloseQueue};
ghost use Rattle.live_words.specs.live_rule.declared.rights.QueueRight.TheVariants.{Owns};
ghost use Rattle.live_words.specs.live_rule.declared.rights.WorkRight.TheVariants.{Works};
ghost use Rattle.live_words.specs.live_rule.declared.rights.RecordRight.TheVariants.{Nothing};
ghost use Rattle.live_words.specs.live_rule.Rights.{object_in};
ghost use Rattle.live_read.specs.Hearing.{OnlyHears};
ghost use Rattle.live_callbacks.specs.Items.{Closes, FindsMore, FindsNone, GetsNoPlace, HasNoBatch, IsPushed, IsTakenOut, TakesBatch};
ghost use Rattle.live_callbacks.specs.Retiring.{QueuesFor};

use crate::job::Job;
use crate::retiring::queue_object;
use callback_queue::{CallbackQueue, Item, Ticket};
use gp_memb::GracePlan;
use live_read::{Caller, Site, tell_all};
use live_words::{
    ChainRule, Identity, LiveSeat, LiveTable, load_finished, load_queued, store_closed,
};
use live_write::Unlinked;
use rcu_model::{ObjectId, Refusal};
use std::alloc::Global;
use std::marker::Model;

/// What lies under a queue's lock: the callbacks that were queued and have not left, and the seat with the right to
/// queue.
#[derive(Drop)]
pub struct Items<B: Site, C: Drop> {
    pub(crate) queue: CallbackQueue<Job<B, C>>,
    pub(crate) seat: LiveSeat,
    pub(crate) number: usize,
}

impl<B: Site, C: Drop> Model for Items<B, C> {
    ghost use Rattle.std.specs.Prelude.{◌≡◌, ℕ, []};
    ghost use Rattle.live_words.specs.live_rule.declared.view.View.{View};
    ghost use Rattle.live_callbacks.specs.Items.{IsUnderLock, Jobs};

    // The items, what the queue's seat knows, and which queue it is.
    ghost Value = { Jobs C × View × ℕ };

    ghost view = { λ i. (i.queue, i.seat.me.0, i.number) };

    ghost invariant = { λ i. (i.seat.table_id ≡ B.table) × (i.seat.me.1 ≡ []) × IsUnderLock B.sizes i.queue i.seat.me.0 i.number };
}

impl<B: Site, C: Drop> Items<B, C> {
    /// An open queue with no items, by the seat with the right to it.
    pub fn new(alloc: Global, seat: LiveSeat, number: usize) -> Items<B, C>
        requires site { (seat.table_id ≡ B.table) × (seat.me.0.sizes ≡ B.sizes) × (seat.me.1 ≡ []) }
        requires right { (seat.me.0.queue ≡ Owns number 0 0) × (seat.me.0.object ≡ Nothing) × (number < B.sizes.queues) }
        ensures { result ≡ (empty_queue, seat.me.0, number) }
    {
        Items {
            queue: CallbackQueue::new(alloc),
            seat,
            number,
        }
    }

    /// Which queue it is.
    pub fn number(&self) -> usize
        ensures { result ≡ self.now.2 }
    {
        self.number
    }

    /// Makes room for one callback, so that `retire` is not refused next: for calls that cut and retire.
    ///
    /// Refused with `Closed` exactly where the queue was closed, else with `Memory`; then the items are as they were.
    /// It waits for nobody.
    pub fn prepare(&mut self) -> Result<(), Refusal>
        ensures ok { IfOk result (λ _. (self.old.0.closed ≡ false) × (given_of self.old.0 < 2 ^ 63) × (self.new.0 ≡ with_place self.old.0)) }
        ensures refused { IfErr result (λ e. GetsNoPlace self.old.0 e) }
        ensures back { IfErr result (λ _. self.new ≡ self.old) }
        ensures same { (self.new.1 ≡ self.old.1) × (self.new.2 ≡ self.old.2) }
    {
        if self.queue.is_closed() {
            return Err(Refusal::Closed);
        }
        if self.queue.given() >= (1 << 63) {
            return Err(Refusal::Memory);
        }
        self.queue.reserve()
    }

    /// Retires a cut object and queues its callback, liburcu's `call_rcu`. The retirement comes after the cut, and
    /// after all that the caller had seen and heard of; the caller hears of it. The log notes which callback it is.
    ///
    /// Refused with `Closed` exactly where the queue was closed, else with `Memory`; then nothing was stored, and both
    /// parts come back. It waits for nobody.
    pub fn retire<P: GracePlan, K: ChainRule, W: Caller<B>>(
        &mut self,
        table: &LiveTable<P, K>,
        caller: &mut W,
        unlinked: Unlinked<B>,
        callback: C,
    ) -> Result<Ticket, (Refusal, Unlinked<B>, C)>
        requires site { (table.now.words.shared.table_id ≡ B.table) × (table.now.words.shared.key ≡ B.sizes) }
        ensures queue { self.new.2 ≡ self.old.2 }
        ensures ticket { IfOk result (λ t. (self.old.0.closed ≡ false) × (t.0 ≡ given_of self.old.0 + 1) × (given_of self.new.0 ≡ t.0)) }
        ensures pushed { IfOk result (λ _. IsPushed self.old.0 self.new.0 (object_in unlinked.seat.me.0.object) callback) }
        ensures retired { IfOk result (λ _. QueuesFor W.Caller P.QSBR K.allows caller.old caller.new unlinked.seat.me.0 self.old.2 (given_of self.old.0) (C.row.coded.code callback)) }
        ensures refused { IfErr result (λ e. ((e.0 ≡ Closed) × (self.old.0.closed ≡ true)) ⊎ ((e.0 ≡ Memory) × (self.old.0.closed ≡ false))) }
        ensures prepared { self.old.0.closed ≡ false → self.old.0.reserved ≡ true → given_of self.old.0 < 2 ^ 63 → IsOk result }
        ensures back { IfErr result (λ e. (e.1 ≡ unlinked) × (e.2 ≡ callback) × (self.new ≡ self.old) × (caller.new ≡ caller.old)) }
        ensures same { OnlyHears W.Caller caller.old caller.new }
    {
        if self.queue.is_closed() {
            return Err((Refusal::Closed, unlinked, callback));
        }
        let given = self.queue.given();
        if given >= (1 << 63) {
            return Err((Refusal::Memory, unlinked, callback));
        }
        let Ok(()) = self.queue.reserve() else {
            return Err((Refusal::Memory, unlinked, callback));
        };
        let (mut seat, cell) = unlinked.into_parts();
        let told = tell_all(table, caller);
        table.learn(&mut seat, told);
        let identity = Identity::of(&callback);
        let id = identity.id();
        let (seat, number) = queue_object(
            table,
            &mut self.seat,
            seat,
            self.number,
            given,
            cell,
            &id,
        );
        caller.learn(table, table.tell(&mut self.seat));
        let item = Item {
            object: ObjectId(number),
            job: Job::of(seat, cell, callback, identity),
        };
        match self.queue.push(item) {
            Ok(ticket) => Ok(ticket),
            Err(_) => unreachable!(),
        }
    }

    /// Takes all that is queued and not finished, for a worker that waits for a grace period and then runs it, as
    /// liburcu's thread of `call_rcu` splices its queue. Answers how many were queued at the worker's load of that count.
    /// Where it takes something, the worker then loads how many are finished: its looks tell each batch. The other list
    /// gets room for an entry for each.
    ///
    /// Refused with `Memory` where room is refused, or where the items are not those that come next after this many
    /// that are finished; then they are as they were. It waits for nobody.
    pub fn take_batch<P: GracePlan, K: ChainRule, T: Drop>(
        &mut self,
        table: &LiveTable<P, K>,
        worker: &mut LiveSeat,
        queue: usize,
        finished: u64,
        list: &mut Vec<T>,
        batch: &mut Vec<Item<Job<B, C>>>,
    ) -> Result<u64, Refusal>
        requires site { (table.now.words.shared.table_id ≡ B.table) × (table.now.words.shared.key ≡ B.sizes) }
        requires worker { (worker.old.table_id ≡ B.table) × (worker.old.me.0.sizes ≡ B.sizes) × (worker.old.me.0.work ≡ Works queue finished) }
        requires queue { self.old.2 ≡ queue }
        requires batch { batch.old.items ≡ [] }
        ensures list { list.new.items ≡ list.old.items }
        ensures room { IfOk result (λ n. vec_len list.new + (n - finished) ≤ vec_capacity list.new) }
        ensures least { IfOk result (λ n. finished ≤ n) }
        ensures taken { IfOk result (λ n. finished < n → TakesBatch P.QSBR K.allows B.sizes queue finished n batch.new.items worker.old worker.new) }
        ensures moved { IfOk result (λ n. finished < n → IsTakenOut self.old.0 self.new.0 batch.new.items) }
        ensures found { IfOk result (λ n. n ≡ finished → FindsNone P.QSBR K.allows B.sizes queue finished worker.old worker.new) }
        ensures none { IfOk result (λ n. n ≡ finished → (batch.new.items ≡ []) × (self.new.0 ≡ self.old.0)) }
        ensures refused { IfErr result (λ e. (e ≡ Memory) × FindsMore P.QSBR K.allows B.sizes queue finished worker.old worker.new) }
        ensures lacks { IfErr result (λ _. HasNoBatch self.old.0 queue finished worker.new.me.0.seen (vec_len list.old, vec_capacity list.old) (vec_capacity batch.old)) }
        ensures back { IfErr result (λ _. (self.new.0 ≡ self.old.0) × (batch.new.items ≡ [])) }
        ensures queue { self.new.2 ≡ self.old.2 }
    {
        table.learn(worker, table.tell(&mut self.seat));
        let queued = load_queued(table, worker, queue);
        if queued <= finished {
            return Ok(finished);
        }
        let count = queued - finished;
        let (_, _, fresh) = self.queue.segments();
        if self.queue.given() != queued || fresh != count {
            return Err(Refusal::Memory);
        }
        if list.reserve(count as usize).is_err() || batch.reserve(count as usize).is_err() {
            return Err(Refusal::Memory);
        }
        let _finished = load_finished(table, worker, queue);
        self.queue.seal();
        self.queue.take_waiting(batch);
        Ok(queued)
    }

    /// Closes the queue: every later `retire` is refused, and what is queued stays. The caller hears of it. It waits
    /// for nobody.
    pub fn close<P: GracePlan, K: ChainRule, W: Caller<B>>(
        &mut self,
        table: &LiveTable<P, K>,
        caller: &mut W,
    )
        requires site { (table.now.words.shared.table_id ≡ B.table) × (table.now.words.shared.key ≡ B.sizes) }
        ensures queue { (self.new.0 ≡ closed_queue self.old.0) × (self.new.2 ≡ self.old.2) }
        ensures closed { Closes P.QSBR K.allows (W.seen caller.old) (W.heard caller.old) self.old.2 (W.heard caller.new) }
        ensures same { OnlyHears W.Caller caller.old caller.new }
    {
        let told = tell_all(table, caller);
        table.learn(&mut self.seat, told);
        store_closed(table, &mut self.seat, self.number);
        self.queue.close();
        caller.learn(table, table.tell(&mut self.seat));
    }
}
