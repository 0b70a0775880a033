//! What each step on a queue tells.
ghost use Rattle.step_queues.specs.Queues.{closed, finished, freed, held, looked, queued, told_id};

use atomic_table::Play;
use live_rule::{CallbackId, ChainRule, GracePlan, View};
use std::marker::PhantomData;

pub(crate) struct Looks<P, K>(PhantomData<(P, K)>);

impl<P: GracePlan, K: ChainRule> Play<CallbackId, View> for Looks<P, K> {
    ghost then = { looked P.QSBR K.allows };
}

pub(crate) struct Queues<P, K>(PhantomData<(P, K)>);

impl<P: GracePlan, K: ChainRule> Play<CallbackId, View> for Queues<P, K> {
    ghost then = { λ st. queued P.QSBR K.allows (told_id st.said) st };
}

pub(crate) struct Closes<P, K>(PhantomData<(P, K)>);

impl<P: GracePlan, K: ChainRule> Play<CallbackId, View> for Closes<P, K> {
    ghost then = { closed P.QSBR K.allows };
}

pub(crate) struct Finishes<P, K>(PhantomData<(P, K)>);

impl<P: GracePlan, K: ChainRule> Play<CallbackId, View> for Finishes<P, K> {
    ghost then = { finished P.QSBR K.allows };
}

pub(crate) struct HoldsWork<P, K>(PhantomData<(P, K)>);

impl<P: GracePlan, K: ChainRule> Play<CallbackId, View> for HoldsWork<P, K> {
    ghost then = { held P.QSBR K.allows };
}

pub(crate) struct FreesWork<P, K>(PhantomData<(P, K)>);

impl<P: GracePlan, K: ChainRule> Play<CallbackId, View> for FreesWork<P, K> {
    ghost then = { freed P.QSBR K.allows };
}
