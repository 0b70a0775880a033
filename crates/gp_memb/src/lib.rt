#![tactic(auto)]
//! Grace periods as plans: what a plan promises, and the plan of the general-purpose flavour.

mod laws;
mod memb;
mod plan;
mod scan;

pub use laws::{early_group_words_break_the_law, shorter_plans_break_the_law};
pub use memb::MembPlan;
pub use plan::{Action, GracePlan, Turn};
pub use scan::{Look, Scan};
