//! What holds of all schedules' texts.

ghost use Rattle.std.specs.Prelude.{◌≡◌, ℕ, ◌<◌, ◌^◌, List, [], length, Result};
ghost use Rattle.schedule_text.specs.declared.counts.Counts.{Counts};
ghost use Rattle.schedule_text.specs.declared.fault.ReplayFault.{ReplayFault};
ghost use Rattle.schedule.specs.Printed.{Prints, IsBeginning, Ends};
ghost use Rattle.schedule.specs.Ports.{IsAnsweredSoFar};
ghost use Rattle.std.specs.List.{concat};
ghost use Rattle.schedule.specs.Stream.{Progress, Header, AreFed, Finishes};
ghost use Rattle.schedule.specs.Safety.{TellsSafeLog, BeginsSafely};

use rcu_model::every_run_is_safe;
use world::{every_schedule_reclaims_safely, numbers_count_lines};

/// Each text prints one thing, with one result: however a text is cut into pieces, what they print is the same.
pub fn each_text_prints_once()
    ensures some { (text : List ℕ) → (printed : List ℕ) × (result : Result Counts ReplayFault) × Prints text printed result }
    ensures once { (text printed other : List ℕ) (result another : Result Counts ReplayFault) → Prints text printed result → Prints text other another → (printed ≡ other) × (result ≡ another) }
{}

/// However a text is cut into pieces, what a new replay appends to an empty text, fed with the pieces and then
/// finished, is what the joined pieces print, or a beginning of it where memory was refused.
pub fn pieces_print_what_their_text_prints()
    ensures { (pieces : List (List ℕ)) (progress : Progress) (fed printed : List ℕ) (result : Result Counts ReplayFault) → AreFed (Header []) progress pieces [] fed → Finishes progress fed printed result → Ends (concat pieces) printed result }
{}

/// The headline over texts shorter than 2^63 bytes, as every slice is: what a text prints is lines of answers that tell
/// one log, and that log is a run of the abstract machine, in which an object's callback runs at most once and only
/// after every section open at its retirement has ended, no section uses a reclaimed object, and asks and barriers end
/// at most once and only after what they await. The same holds of what was printed when a reader failed, and of the
/// whole lines of what was printed when a write failed or memory was refused, where less than a line may follow them.
pub fn each_text_reclaims_safely()
    ensures whole { (text printed : List ℕ) (result : Result Counts ReplayFault) → length printed < 2 ^ 63 → Prints text printed result → TellsSafeLog printed }
    ensures begun { (text printed : List ℕ) → length printed < 2 ^ 63 → IsBeginning text printed → BeginsSafely printed }
    ensures so_far { (text printed : List ℕ) → length printed < 2 ^ 63 → IsAnsweredSoFar text printed → TellsSafeLog printed }
{
    every_run_is_safe();
    every_schedule_reclaims_safely();
    numbers_count_lines();
}
