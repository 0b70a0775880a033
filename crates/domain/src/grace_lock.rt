//! What the grace lock guards.

ghost use Rattle.std.specs.Prelude.{◌≡◌, [], ◌∷◌};
ghost use Rattle.live_log.specs.Log.{Begins, HaveEnded, IsLiveRun};
ghost use Rattle.live_words.specs.live_rule.declared.rights.GraceRight.TheVariants.{Rests};
ghost use Rattle.live_words.specs.live_rule.Steps.{Keeps};

use gp_memb::GracePlan;
use live_read::Site;
use live_waits::{GraceWriter, LiveAsk};
use live_words::{ChainRule, LiveSeat, LiveTable};
use std::marker::PhantomData;
use std::sync::Wait;

/// What the grace lock guards: the writer of the words of grace periods.
#[derive(Drop)]
pub(crate) struct GraceLock<P: GracePlan, B: Site> {
    writer: GraceWriter<P>,
    site: PhantomData<B>,
    ghost seated: { writer.seat.table_id ≡ B.table },
}

impl<P: GracePlan + Drop, B: Site> GraceLock<P, B> {
    /// Of a seat with the right to the words of grace periods of a new table.
    pub(crate) fn new(seat: LiveSeat) -> GraceLock<P, B>
        requires { (seat.table_id ≡ B.table) × (seat.me.0.grace ≡ Rests 0 0) × (seat.me.1 ≡ []) }
    {
        GraceLock {
            writer: GraceWriter::new(seat),
            site: PhantomData,
        }
    }

    /// Answers an ask: each section that was open in its log has ended in the log that the seat has seen then. It waits
    /// for sections, where it runs a grace period of its own.
    pub(crate) fn answer<K: ChainRule, R: Wait>(
        &mut self,
        rt: &R,
        table: &LiveTable<P, K>,
        seat: &mut LiveSeat,
        ask: LiveAsk<P>,
    )
        requires tables { (table.now.words.shared.table_id ≡ B.table) × (seat.old.table_id ≡ B.table) }
        requires seen { Begins ask.asked.value.me.0.seen seat.old.me.0.seen }
        ensures seat { Keeps seat.old seat.new × (seat.new.me.1 ≡ seat.old.me.1) }
        ensures rights { (seat.new.me.0.sizes ≡ seat.old.me.0.sizes) × (seat.new.me.0.work ≡ seat.old.me.0.work) }
        ensures load { (seat.new.me.0.loads ≡ seat.new.me.0.seen ∷ seat.old.me.0.loads) × (seat.new.me.0.looks ≡ seat.old.me.0.looks) }
        ensures later { Begins seat.old.me.0.seen seat.new.me.0.seen × IsLiveRun P.QSBR K.allows seat.new.me.0.seen }
        ensures ended { HaveEnded ask.asked.value.me.0.seen seat.new.me.0.seen }
    {
        self.writer.answer(rt, table, seat, ask);
    }
}
