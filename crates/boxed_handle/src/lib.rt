#![tactic(auto)]
//! What a struct of C's keeps in a box of the heap: its pointer, whether there is one, and what is taken out, put back
//! and lent.

mod handle;
mod kept;
mod lend;

pub use handle::{Handle, put, take};
pub use kept::Kept;
