//! What is queued with an object.

use live_read::Site;
use live_words::{Identity, LiveSeat};
use std::marker::{Model, PhantomData};

/// The right to run a queued object, and what is called then. Where it is dropped, the object is never run.
#[derive(Drop)]
pub struct Job<B: Site, C: Drop> {
    pub(crate) seat: LiveSeat,
    pub(crate) cell: usize,
    pub(crate) callback: C,
    pub(crate) identity: Identity<C>,
    pub(crate) site: PhantomData<B>,
}

impl<B: Site, C: Drop> Model for Job<B, C> {
    ghost use Rattle.std.specs.Prelude.{◌≡◌, ◌<◌, ◌^◌, []};
    ghost use Rattle.live_words.specs.live_rule.Rights.{IsQueued, cell_in, object_in};
    ghost use Rattle.live_callbacks.specs.Items.{JobValue};

    // What its seat knows, its record, what is called, and the code with which that was queued.
    ghost Value = { JobValue C };

    ghost view = { λ j. (j.seat.me.0, j.cell, j.callback, j.identity.code) };

    ghost invariant = { λ j. (j.seat.table_id ≡ B.table) × (j.seat.me.1 ≡ []) × (j.seat.me.0.sizes ≡ B.sizes) × IsQueued j.seat.me.0 × (cell_in j.seat.me.0.object ≡ j.cell) × (j.cell < B.sizes.pool) × ((object_in j.seat.me.0.object).0 < 2 ^ 62) × (j.identity.value ≡ j.callback) };
}

impl<B: Site, C: Drop> Job<B, C> {
    ghost use Rattle.std.specs.Prelude.{◌≡◌, ◌<◌, ◌^◌, []};
    ghost use Rattle.live_words.specs.live_rule.Rights.{IsQueued, cell_in, object_in};

    /// Of a seat with the right to run its object.
    pub(crate) fn of(seat: LiveSeat, cell: usize, callback: C, identity: Identity<C>) -> Job<B, C>
        requires site { (seat.table_id ≡ B.table) × (seat.me.0.sizes ≡ B.sizes) × (seat.me.1 ≡ []) }
        requires right { IsQueued seat.me.0 × (cell_in seat.me.0.object ≡ cell) × (cell < B.sizes.pool) }
        requires number { (object_in seat.me.0.object).0 < 2 ^ 62 }
        requires identity { identity.value ≡ callback }
        ensures { result ≡ (seat.me.0, cell, callback, identity.code) }
    {
        Job {
            seat,
            cell,
            callback,
            identity,
            site: PhantomData,
        }
    }

    /// What was to be called: the callback that was queued, by its code. Its object is never run.
    pub fn into_callback(self) -> C
        ensures callback { result ≡ self.2 }
        ensures queued { self.3 ≡ C.row.coded.code result }
    {
        let Job {
            callback,
            identity,
            ..
        } = self;
        identity.tells();
        callback
    }
}
