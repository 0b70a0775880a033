//! Where the words lie. Each answer is the index of a word.
ghost use Rattle.std.specs.Prelude.{◌≡◌, ◌<◌, ◌≤◌};

use crate::table::LiveTable;
use gp_memb::GracePlan;
use live_log::ChainRule;

/// The sequence number's place.
const SEQ: usize = 16;

/// The place of the phase or number.
const PRESENT: usize = 32;

/// The place of the first group word.
const GROUPS: usize = 48;

/// The place of the first slot's word.
const SLOTS: usize = 64;

/// Where the words lie, by `Places` of the rule.
impl<P: GracePlan, K: ChainRule> LiveTable<P, K> {
    ghost use Rattle.std.specs.Prelude.{ℕ, ◌+◌, ◌*◌};
    ghost use Rattle.live_rule.specs.Places.{cell_at, closed_at, finished_at, group_at, head_at, hold_at, note_at, present_at, queued_at, seq_at, slot_at, work_at};

    /// The word of a slot's reader.
    pub fn slot_place(&self, slot: usize) -> usize
        requires { slot < self.now.slots }
        ensures { (result ≡ slot_at slot) × (result < self.now.words.shared.table_id.words) }
    {
        16 * slot + SLOTS
    }

    /// The word of a group of 64 slots.
    pub fn group_place(&self, group: usize) -> usize
        requires { group < 4 }
        ensures { (result ≡ group_at group) × (result < self.now.words.shared.table_id.words) }
    {
        group + GROUPS
    }

    /// The sequence number.
    pub fn seq_place(&self) -> usize
        ensures { (result ≡ seq_at) × (result < self.now.words.shared.table_id.words) }
    {
        SEQ
    }

    /// The present phase or number.
    pub fn present_place(&self) -> usize
        ensures { (result ≡ present_at) × (result < self.now.words.shared.table_id.words) }
    {
        PRESENT
    }

    /// The head of a chain.
    pub fn head_place(&self, chain: usize) -> usize
        requires { chain < self.now.chains }
        ensures { (result ≡ head_at self.now.words.shared.key chain) × (result < self.now.words.shared.table_id.words) }
    {
        self.chains_from + 8 * chain
    }

    /// The hold word of a chain.
    pub fn hold_place(&self, chain: usize) -> usize
        requires { chain < self.now.chains }
        ensures { (result ≡ hold_at self.now.words.shared.key chain) × (result < self.now.words.shared.table_id.words) }
    {
        16 * self.slots + 73 + 8 * chain
    }

    /// The note of a chain.
    pub fn note_place(&self, chain: usize) -> usize
        requires { chain < self.now.chains }
        ensures { (result ≡ note_at self.now.words.shared.key chain) × (result < self.now.words.shared.table_id.words) }
    {
        16 * self.slots + 74 + 8 * chain
    }

    /// The queued count of a queue.
    pub fn queued_place(&self, queue: usize) -> usize
        requires { queue < self.now.queues }
        ensures { (result ≡ queued_at self.now.words.shared.key queue) × (result < self.now.words.shared.table_id.words) }
    {
        16 * self.slots + 8 * self.chains + 80 + 32 * queue
    }

    /// The closed word of a queue.
    pub fn closed_place(&self, queue: usize) -> usize
        requires { queue < self.now.queues }
        ensures { (result ≡ closed_at self.now.words.shared.key queue) × (result < self.now.words.shared.table_id.words) }
    {
        16 * self.slots + 8 * self.chains + 81 + 32 * queue
    }

    /// The finished count of a queue.
    pub fn finished_place(&self, queue: usize) -> usize
        requires { queue < self.now.queues }
        ensures { (result ≡ finished_at self.now.words.shared.key queue) × (result < self.now.words.shared.table_id.words) }
    {
        16 * self.slots + 8 * self.chains + 96 + 32 * queue
    }

    /// The hold word of a queue's worker.
    pub fn work_place(&self, queue: usize) -> usize
        requires { queue < self.now.queues }
        ensures { (result ≡ work_at self.now.words.shared.key queue) × (result < self.now.words.shared.table_id.words) }
    {
        16 * self.slots + 8 * self.chains + 97 + 32 * queue
    }

    /// A word of a record: its header is word 0, its link word 1, and its payload words 2 to 5.
    pub fn cell_place(&self, cell: usize, word: usize) -> usize
        requires { (cell < self.now.pool) × (word < 6) }
        ensures { (result ≡ cell_at self.now.words.shared.key cell word) × (result < self.now.words.shared.table_id.words) }
    {
        self.records_from + 6 * cell + word
    }
}
