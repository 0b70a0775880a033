//! That what a schedule prints is read back as the log of its world.

ghost use Rattle.std.specs.Prelude.{◌≡◌, ◌<◌, ◌^◌, ℕ, List, length};
ghost use Rattle.world.specs.Steps.{WorldView, log_of};
ghost use Rattle.schedule_text.specs.declared.counts.Counts.{Counts};
ghost use Rattle.schedule_text.specs.AnswerLines.{TellsLog};
ghost use Rattle.schedule.specs.Printed.{Good, BadLine};
ghost use Rattle.schedule.specs.RoundTrip.{TellsTheLogAfter};
ghost use Rattle.schedule.specs.Stream.{IsAnswered};

use world::{every_schedule_reclaims_safely, numbers_count_lines};

/// What a text prints is lines of answers that tell the log of the world after the text's lines, where it is less than
/// 2^63 bytes, as every slice is. So that log is what `read_answers` reads in the answers and end line of a good text,
/// in the answers to the lines before a bad one, and in what a replay has printed so far.
pub fn answers_tell_the_log()
    ensures whole { (text printed : List ℕ) (counts : Counts) → length printed < 2 ^ 63 → (good : Good text printed counts) → TellsTheLogAfter good.config good.lines printed }
    ensures broken_off { (text printed : List ℕ) (line column : ℕ) → length printed < 2 ^ 63 → (bad : BadLine text printed line column) → TellsTheLogAfter bad.config bad.lines printed }
    ensures so_far { (world : WorldView) (line : ℕ) (held fed printed : List ℕ) → length printed < 2 ^ 63 → IsAnswered world line held fed printed → TellsLog printed (log_of world) }
{
    every_schedule_reclaims_safely();
    numbers_count_lines();
}
