#![tactic(auto)]
//! A domain under load: readers, updaters, workers and more, each in a thread of its own, and what they count.

mod chains;
mod counts;
mod deadline;
mod growing;
mod load;
mod looking;
mod mapping;
mod maps;
mod reading;
mod round;
mod running;
mod target;
mod threads;
mod updating;
mod waiting;
mod watch;

pub use chains::stress;
pub use counts::Counts;
pub use deadline::Deadline;
pub use growing::grows_to;
pub use load::Load;
pub use maps::{Buckets, Map, View, look, put, table, take_out, view_of, walk};
pub use reading::{begin, reads};
pub use round::RoundDone;
pub use running::stress_on;
pub use target::Target;
pub use threads::{together, works};
pub use updating::when_free;
pub use watch::{Unwatched, Watch};
