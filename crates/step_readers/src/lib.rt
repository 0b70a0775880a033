#![tactic(auto)]
//! A step of a reader stores its own word, for a lock or an announcement. A step on a group word claims or releases a
//! slot.

mod announcements;
mod group_plays;
mod groups;
mod locks;
mod masks;
mod plays;
mod steps;

pub use announcements::{offline, online, quiescent};
pub use groups::{claim, look_group, release};
pub use locks::{lock, unlock};
pub use steps::{load_present, look_slot, store_close, store_inner, store_open, store_quiescent};
