#![tactic(auto)]
//! Readers of the library over live threads, and their sections.

mod caller;
mod claiming;
mod flavour;
mod held;
mod laws;
mod reader;
mod reader_core;
mod reading;
mod registering;
mod searches;
mod section;
mod site;
mod telling;

pub use caller::{Caller, Handle};
pub use held::Held;
pub use laws::readings_fit;
pub use reader::Reader;
pub use reader_core::ReaderCore;
pub use searches::Searches;
pub use section::Section;
pub use site::Site;
pub use telling::{inform, learn_more, tell_all};
