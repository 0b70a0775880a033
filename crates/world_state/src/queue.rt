//! What the world keeps of a queue of callbacks, and what a step changes of it.

ghost use Rattle.std.specs.Prelude.{◌≡◌, false, slice_get, OnOk, IfErr};
ghost use Rattle.world_state.specs.Queues.{held_at, acted_at, MayActAt, NeedsPlace};
ghost use Rattle.rcu_model.specs.declared.refusal.Refusal.TheVariants.{Memory};

use callback_queue::{CallbackQueue, Item};
use poll_cookie::Cookie;
use rcu_model::{ObjectId, Refusal};
use std::alloc::Global;

/// What the world keeps of a queue.
#[derive(Drop)]
pub struct QueueState {
    /// The updater that holds the queue's lock.
    pub holder: Option<u32>,
    /// What was pushed and not popped.
    pub items: CallbackQueue<()>,
    /// The queued count: how many items were announced.
    pub queued: u64,
    /// The finished count: how many items were run and counted.
    pub finished: u64,
}

/// What a step changes of a queue.
#[derive(Clone, Copy, Drop)]
pub enum QueueAct {
    /// Leaves it as it is.
    Leave,
    /// Adds one to the queued count.
    Count,
    /// Pushes an item, in the place that was reserved for it.
    Push(ObjectId),
    /// Frees the queue's lock.
    Free,
    /// Lets all fresh items wait.
    Seal,
    /// Notes the cookie for which they wait.
    Note(Cookie),
    /// Makes them ready, where the sequence number has reached the cookie.
    Advance(u64),
    /// Takes the first ready item out.
    Pop,
    /// Adds one to the finished count.
    Finish,
}

impl QueueState {
    ghost use Rattle.world_state.specs.Queues.{empty_queue_state, held_by, acted, MayAct};

    /// A queue with no items, whose lock is free.
    pub fn new(alloc: Global) -> QueueState
        ensures { result ≡ empty_queue_state }
    {
        QueueState {
            holder: None,
            items: CallbackQueue::new(alloc),
            queued: 0,
            finished: 0,
        }
    }

    /// Reserves a place for an item, and takes the lock.
    ///
    /// Refused with `Memory`, and then the queue is as it was.
    pub fn hold(&mut self, updater: u32) -> Result<(), Refusal>
        ensures ok { OnOk result (self.new ≡ held_by updater self.old) }
        ensures err { IfErr result (λ e. (e ≡ Memory) × (self.old.items.reserved ≡ false) × (self.new ≡ self.old)) }
    {
        self.items.reserve()?;
        self.holder = Some(updater);
        Ok(())
    }

    /// Makes the change.
    pub fn act(&mut self, act: QueueAct)
        requires { MayAct act self.old }
        ensures { self.new ≡ acted act self.old }
    {
        match act {
            QueueAct::Leave => {}
            QueueAct::Count => self.queued += 1,
            QueueAct::Push(object) => {
                let pushed = self.items.push(Item { object, job: () }).is_ok();
                prove!(pushed);
            }
            QueueAct::Free => self.holder = None,
            QueueAct::Seal => {
                self.items.seal();
            }
            QueueAct::Note(cookie) => self.items.note(cookie),
            QueueAct::Advance(seq) => {
                self.items.advance(seq);
            }
            QueueAct::Pop => {
                self.items.pop_ready();
            }
            QueueAct::Finish => self.finished += 1,
        }
    }
}

/// Reserves a place in a queue of these for an updater, and takes its lock, where there is such a queue.
///
/// Refused with `Memory`, and then all is as it was.
pub fn hold_queue(queues: &mut [QueueState], place: usize, updater: u32) -> Result<(), Refusal>
    ensures ok { OnOk result (queues.new ≡ held_at queues.old place updater) }
    ensures err { IfErr result (λ e. (e ≡ Memory) × NeedsPlace (slice_get queues.old place) × (queues.new ≡ queues.old)) }
{
    if place >= queues.len() {
        return Ok(());
    }
    queues[place].hold(updater)
}

/// Makes a change of a queue of these, where there is such a queue.
// Most steps of workers leave their queue as it is, and then cost no call.
#[inline(always)]
pub fn act_on(queues: &mut [QueueState], place: usize, act: QueueAct)
    requires { MayActAt act (slice_get queues.old place) }
    ensures { queues.new ≡ acted_at queues.old place act }
{
    if place < queues.len() {
        queues[place].act(act);
    }
}
