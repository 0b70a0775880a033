#![tactic(auto)]
//! The words under the library over live threads: the face of the crates `live_log`, `live_rule`, `step_readers`,
//! `step_grace`, `step_records`, `step_chains` and `step_queues` for those above.

pub use live_rule::{
    AnyChain, CallbackId, ChainRight, ChainRule, GraceRight, Identity, Keyed, LiveEvent, LiveRule,
    LiveSeat, LiveTable, Look, ObjectEvent, QueueRight, RecordRight, Sizes, SlotRight, Tabled,
    View, WorkRight,
};
pub use step_chains::{
    cut, free_chain, hold_chain, load_head, load_link, load_note, load_word, push, replace,
    store_cut, store_note, store_push, store_replace,
};
pub use step_grace::{load_group, load_seq, load_slot, store_even, store_odd, store_present};
pub use step_queues::{
    end_work, free_work, hold_work, load_closed, load_finished, load_queued, store_closed,
    store_finished, store_queued,
};
pub use step_readers::{
    claim, load_present, lock, look_group, look_slot, offline, online, quiescent, release,
    store_close, store_inner, store_open, store_quiescent, unlock,
};
pub use step_records::{
    load_header, load_number, load_payload, next_number, store_discard, store_link, store_retire,
    store_run, store_word, take_cell,
};
