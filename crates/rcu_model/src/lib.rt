#![tactic(auto)]
//! The events of the library, the abstract machine that they go by, its laws, and the refusals of every call.

mod event;
mod laws;
mod printing;
mod refusal;

pub use event::{Event, ObjectId, SectionId};
pub use laws::{
    callbacks_are_queued_once_before_they_run, callbacks_run_once_after_their_sections,
    every_run_counts_its_state, every_run_is_safe, first_in_first_out_runs_in_order,
    held_is_not_reclaimed, readings_change_no_live_event, runs_read_both_ways, sections_open_once,
    waits_end_once_after_what_they_await, what_was_linked_is_not_reclaimed,
};
pub use refusal::Refusal;
