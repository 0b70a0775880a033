#![tactic(auto)]
//! The steps on records: headers, which number objects, and the links and payload words of those that no chain has
//! linked yet.

mod fates;
mod plays;
mod steps;

pub use fates::{load_payload, store_retire, store_run};
pub use steps::{
    load_header, load_number, next_number, store_discard, store_link, store_word, take_cell,
};
