#![tactic(auto)]
//! Texts of answers that come in pieces, judged as they come.

mod judging;
mod text_judge;

pub use judging::Judging;
pub use text_judge::{Finding, TextJudge};
