#![tactic(auto)]
//! The text of schedules and of their answers, read and printed. No world is made of it here.

mod answer_line;
mod answer_pieces;
mod answer_reading;
mod answer_words;
mod answers;
mod counts;
mod event_reading;
mod fault;
mod header;
mod laws;
mod pieces;
mod reading;
mod spelling;
mod whole;
mod words;

pub use answer_pieces::AnswerReader;
pub use answer_reading::read_answers;
pub use answers::{print_answer, print_end, print_event};
pub use counts::Counts;
pub use fault::{AnswersFault, ReplayFault, ScheduleFault};
pub use header::front_header;
pub use laws::answers_are_lines;
pub use pieces::{NINE, NINETEEN, ended_number, number, word};
pub use reading::{TextFault, column_of, front_go_on, front_line, read_line};
pub use spelling::{print_header, print_line};
pub use whole::{Schedule, read_schedule};
