#![tactic(auto)]
//! The steps on chains: loads of heads, links, payload words and notes, hold words, notes, and the stores that publish.

mod holds;
mod loads;
mod plays;
mod publishing;
mod steps;

pub use holds::{free_chain, hold_chain, store_note};
pub use loads::{load_head, load_link, load_note, load_word};
pub use publishing::{cut, push, replace};
pub use steps::{store_cut, store_push, store_replace};
