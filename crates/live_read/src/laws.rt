//! What a section reads, call by call, is a run of the abstract machine.

ghost use Rattle.std.specs.Prelude.{◌≡◌, ℕ, [], Option};
ghost use Rattle.rcu_model.specs.declared.event.ObjectId.{ObjectId};
ghost use Rattle.rcu_model.specs.declared.event.SectionId.{SectionId};
ghost use Rattle.live_log.specs.Log.{Begins, IsLiveRun};
ghost use Rattle.live_log.specs.declared.reading.Reading.TheVariants.{First, Next, Touch};
ghost use Rattle.live_log.specs.Fit.{HoldsIn, Readings, later};
ghost use Rattle.live_read.specs.declared.reader_core.ReaderCore.{ReaderCore};
ghost use Rattle.live_read.specs.Holding.{log_of, section_of};
ghost use Rattle.live_read.specs.Readings.{HasRead, HasReadMore, HasReadNoMore};
ghost use Rattle.live_read.specs.Reads.{FindsFirst, FindsNext, Looks};
ghost use Rattle.live_read.specs.Sections.{IsIn};

use gp_memb::GracePlan;
use live_log::{fitted_goes_on, section_reads_on};
use live_words::ChainRule;

/// The readings of a section, put into the log that its reader has seen, are a run of the abstract machine: a section
/// that has read nothing begins so, and each `first`, `next` and `read` leaves it so, by what its contract tells. So
/// does all else that its reader sees while the section stays open.
pub fn readings_fit<P: GracePlan, K: ChainRule>()
    ensures nothing { (r : ReaderCore P K P.GracePlan) → IsIn r → IsLiveRun P.QSBR K.allows (log_of r) → HasRead (section_of r) (later (log_of r) []) r }
    ensures waits { (r t : ReaderCore P K P.GracePlan) (s : SectionId) (m : Readings) → HasRead s m r → IsIn t → section_of t ≡ s → Begins (log_of r) (log_of t) → IsLiveRun P.QSBR K.allows (log_of t) → HasReadNoMore s m t }
    ensures first { (r t : ReaderCore P K P.GracePlan) (s : SectionId) (m : Readings) (c : ℕ) (found : Option ObjectId) → HasRead s m r → Looks P.QSBR K.allows r t → FindsFirst t c found → HasReadMore s m (First c found) t }
    ensures next { (r t : ReaderCore P K P.GracePlan) (s : SectionId) (m : Readings) (o : ObjectId) (found : Option ObjectId) → HasRead s m r → Looks P.QSBR K.allows r t → HoldsIn m s o → FindsNext t o found → HasReadMore s m (Next o found) t }
    ensures touch { (r t : ReaderCore P K P.GracePlan) (s : SectionId) (m : Readings) (o : ObjectId) → HasRead s m r → Looks P.QSBR K.allows r t → HoldsIn m s o → HasReadMore s m (Touch o) t }
{
    fitted_goes_on::<K>();
    section_reads_on::<K>();
}
