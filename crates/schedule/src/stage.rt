//! How far a replay has come.

use crate::held::Held;
use crate::running::Running;
use schedule_text::ReplayFault;

/// How far a replay has come.
#[derive(Drop)]
pub enum Stage {
    /// The header has not ended.
    Header(Held),
    /// The header has ended.
    Lines(Running),
    /// A fault came. It is answered again and again.
    Failed(ReplayFault),
}
