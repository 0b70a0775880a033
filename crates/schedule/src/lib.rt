#![tactic(auto)]
//! Replay, and the face of the text of schedules and of their answers.

mod feeding;
mod held;
mod laws;
mod ports;
mod round_trip;
mod running;
mod stage;
mod stream;

pub use feeding::Replay;
pub use laws::{
    each_text_prints_once, each_text_reclaims_safely, pieces_print_what_their_text_prints,
};
pub use ports::{PIECE, read_whole, write_whole};
pub use round_trip::answers_tell_the_log;
pub use schedule_text::{
    AnswerReader, AnswersFault, Counts, ReplayFault, Schedule, ScheduleFault, TextFault,
    print_event, print_header, print_line, read_answers, read_line, read_schedule,
};
pub use stream::replay;
