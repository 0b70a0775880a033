//! A queue of callbacks, and its worker's rest.

ghost use Rattle.std.specs.Prelude.{◌≡◌, ◌<◌, [], IfOk, vec_len};
ghost use Rattle.std.specs.Sync.Mutex.{mutex_guard_value};
ghost use Rattle.live_words.specs.live_rule.declared.rights.QueueRight.TheVariants.{Owns, Spare};
ghost use Rattle.live_words.specs.live_rule.declared.rights.RecordRight.TheVariants as record_right;

use crossbeam_utils::sync::{Parker, Unparker};
use gp_memb::GracePlan;
use live_callbacks::{Deleter, Items};
use live_read::Site;
use live_words::{ChainRule, LiveSeat, LiveTable};
use std::alloc::{AllocError, Global};
use std::sync::{Mutex, MutexGuard, Wait};

/// A queue of callbacks under its lock, and where its worker rests while nothing is to be done.
#[derive(Drop)]
pub(crate) struct Queue<B: Site, D: Drop> {
    pub(crate) items: Mutex<Items<B, D>>,
    /// Only the queue's worker takes this lock, while it rests.
    pub(crate) parker: Mutex<Parker>,
    pub(crate) unparker: Unparker,
}

impl<B: Site, D: Deleter> Queue<B, D> {
    /// An open queue with no items, by the seat with the right to it.
    pub(crate) fn new(
        alloc: Global,
        seat: LiveSeat,
        number: usize,
    ) -> Result<Queue<B, D>, AllocError>
        requires site { (seat.table_id ≡ B.table) × (seat.me.0.sizes ≡ B.sizes) × (seat.me.1 ≡ []) }
        requires right { (seat.me.0.queue ≡ Owns number 0 0) × (seat.me.0.object ≡ record_right.Nothing) × (number < B.sizes.queues) }
    {
        let parker = Parker::new(alloc)?;
        let unparker = parker.unparker().clone()?;
        Ok(Queue {
            items: Mutex::new(Items::new(alloc, seat, number)),
            parker: Mutex::new(parker),
            unparker,
        })
    }

    /// The queue's items, under their lock. Which queue an unlocked one was is not known before it is looked at, so
    /// that is looked at; it never is another.
    pub(crate) fn lock<'q, R: Wait>(&'q self, rt: &R, number: usize) -> MutexGuard<'q, Items<B, D>>
        ensures { (mutex_guard_value result).2 ≡ number }
    {
        for _ in rt.forever() {
            let items = self.items.lock(rt);
            if items.number() == number {
                return items;
            }
        }
        unreachable!()
    }
}

/// All queues of a new table, by the seat that has the rights to them.
pub(crate) fn queues_of<P: GracePlan, K: ChainRule, B: Site, D: Deleter>(
    alloc: Global,
    table: &LiveTable<P, K>,
    root: &mut LiveSeat,
) -> Result<Vec<Queue<B, D>>, AllocError>
    requires site { (root.old.table_id ≡ B.table) × (root.old.me.0.sizes ≡ B.sizes) × (table.now.words.shared.table_id ≡ B.table) × (table.now.words.shared.key ≡ B.sizes) }
    requires new { (root.old.me.0.queue ≡ Spare 0) × (root.old.me.1 ≡ []) }
    ensures root { IfOk result (λ _. (root.new.table_id ≡ B.table) × (root.new.me ≡ (record root.old.me.0 { queue = Spare B.sizes.queues }, []))) }
    ensures many { IfOk result (λ row. vec_len row ≡ B.sizes.queues) }
{
    let mut row = Vec::with_capacity(alloc, table.queues)?;
    for number in 0..table.queues {
        let seat = table.cut_spare_queue(root);
        row.push_reserved(Queue::new(alloc, seat, number)?);
    }
    Ok(row)
}
