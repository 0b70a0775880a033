//! What readers and updaters note.

ghost use Rattle.std.specs.Prelude.{◌≡◌, ℕ, List, IsTrue};
ghost use Rattle.world_state.specs.declared.config.Config.{Config};
ghost use Rattle.world_state.specs.declared.line.Line.{Line};
ghost use Rattle.reader_word.specs.declared.layout.Layout.{Layout};
ghost use Rattle.world_state.specs.declared.config.Flavour.TheVariants.{Qsbr};
ghost use Rattle.world.specs.Layouts.{answers_to, laid_out};
ghost use Rattle.world.specs.Checks.{AnswersByItsCookie};
ghost use Rattle.world.specs.Loads.{ReadersStoreWhatTheyLoaded};
ghost use Rattle.world.specs.Retiring.{RetirementsGoInOrder};
ghost use Rattle.world.specs.Notes.{NotesAreOfTheLatest, replies_of};
ghost use Rattle.world.specs.Steps.{WorldView, is_supported_at, fresh_world_at, world_after_lines};

use crate::laws::numbers_stay_in_range;
use gp_memb::MembPlan;
use gp_qsbr::QsbrPlan;

/// For every config and first sequence number that make a world, and all lines: a reader stands on the object that it
/// got last in the section that is open, if it got one there, and on none where no section is open; each `next` goes on
/// from that object, and each `touch` is of it. The cookie that an updater's `poll` asks about is that of its latest
/// `start` that was answered, taken from the sequence number of then, until a `poll` was answered, and there is none
/// before; what a `poll` answers is the ask of that `start`.
pub fn notes_are_of_the_latest_line()
    ensures { (config : Config) (seq : ℕ) (lines : List Line) → IsTrue (is_supported_at config seq) → NotesAreOfTheLatest (world_after_lines (fresh_world_at config seq) lines) (replies_of (fresh_world_at config seq) lines) }
{}

/// For every config and first sequence number, and all lines: the word of each section is made of the phase or number
/// that was present at its reader's last line before the one that opened it (refused lines aside), and not of what is
/// present by then.
pub fn readers_store_what_they_loaded()
    ensures { (config : Config) (seq : ℕ) (lines : List Line) → ReadersStoreWhatTheyLoaded (fresh_world_at config seq) lines }
{}

/// A check under the grace lock, and a `poll`, answers its ask exactly where the present sequence number has reached
/// the cookie. Else the check tells nothing, and the `poll` waits; of an updater and of a worker, in every world.
pub fn checks_answer_by_their_cookie()
    ensures { (w : WorldView) (line : Line) → AnswersByItsCookie w line }
{}

/// In the quiescent-state flavour words of both layouts lead to the same answers, for every config and first sequence
/// number, and all lines.
pub fn quiescent_words_answer_alike()
    ensures { (config : Config) (seq : ℕ) (layout : Layout) (lines : List Line) → config.flavour ≡ Qsbr → answers_to (fresh_world_at (laid_out layout config) seq) lines ≡ answers_to (fresh_world_at config seq) lines }
{}

/// For every config and first sequence number that make a world, and all lines: a retirement begins where the lock of
/// the updater's queue is free, which the updater holds from then on. Its further lines store the object's header and
/// tell the retirement, raise the queued count, push the item and tell the queueing, and free the lock, one each, in
/// this order, and touch nothing else of the objects and of the queue.
pub fn retirements_go_in_order()
    ensures { (config : Config) (seq : ℕ) (lines : List Line) (updater : ℕ) → IsTrue (is_supported_at config seq) → RetirementsGoInOrder (world_after_lines (fresh_world_at config seq) lines) updater }
{
    numbers_stay_in_range::<MembPlan>();
    numbers_stay_in_range::<QsbrPlan>();
}
