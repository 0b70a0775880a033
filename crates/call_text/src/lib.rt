#![tactic(auto)]
//! The text of scripts of calls and of their answers, read and printed. No call is made here.

mod answer;
mod call;
mod header;
mod laws;
mod printing;
mod reading;
mod words;

pub use answer::{Answer, Called};
pub use call::{Actor, Call, Header, Verb};
pub use header::{front_header, read_header};
pub use laws::answers_are_lines;
pub use printing::print_answer;
pub use reading::{front_call, read_call};
