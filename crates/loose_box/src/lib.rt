#![tactic(auto)]
//! A box as its pointer, which a struct of C's may keep.

mod loose;

pub use loose::Loose;
