//! What each step on a chain tells.
ghost use Rattle.step_chains.specs.Chains.{cuts, freed, held, looked_head, looked_link, looked_note, looked_word, noted, pushed, replaces};

use atomic_table::Play;
use live_rule::{CallbackId, ChainRule, GracePlan, View};
use std::marker::PhantomData;

pub(crate) struct LooksHead<P, K>(PhantomData<(P, K)>);

impl<P: GracePlan, K: ChainRule> Play<CallbackId, View> for LooksHead<P, K> {
    ghost then = { looked_head P.QSBR K.allows };
}

pub(crate) struct LooksLink<P, K>(PhantomData<(P, K)>);

impl<P: GracePlan, K: ChainRule> Play<CallbackId, View> for LooksLink<P, K> {
    ghost then = { looked_link P.QSBR K.allows };
}

pub(crate) struct LooksWord<P, K>(PhantomData<(P, K)>);

impl<P: GracePlan, K: ChainRule> Play<CallbackId, View> for LooksWord<P, K> {
    ghost then = { looked_word P.QSBR K.allows };
}

pub(crate) struct LooksNote<P, K>(PhantomData<(P, K)>);

impl<P: GracePlan, K: ChainRule> Play<CallbackId, View> for LooksNote<P, K> {
    ghost then = { looked_note P.QSBR K.allows };
}

pub(crate) struct Holds<P, K>(PhantomData<(P, K)>);

impl<P: GracePlan, K: ChainRule> Play<CallbackId, View> for Holds<P, K> {
    ghost then = { held P.QSBR K.allows };
}

pub(crate) struct Frees<P, K>(PhantomData<(P, K)>);

impl<P: GracePlan, K: ChainRule> Play<CallbackId, View> for Frees<P, K> {
    ghost then = { freed P.QSBR K.allows };
}

pub(crate) struct StoresNote<P, K>(PhantomData<(P, K)>);

impl<P: GracePlan, K: ChainRule> Play<CallbackId, View> for StoresNote<P, K> {
    ghost then = { noted P.QSBR K.allows };
}

pub(crate) struct Pushes<P, K>(PhantomData<(P, K)>);

impl<P: GracePlan, K: ChainRule> Play<CallbackId, View> for Pushes<P, K> {
    ghost then = { pushed P.QSBR K.allows };
}

pub(crate) struct Replaces<P, K>(PhantomData<(P, K)>);

impl<P: GracePlan, K: ChainRule> Play<CallbackId, View> for Replaces<P, K> {
    ghost then = { replaces P.QSBR K.allows };
}

pub(crate) struct Cuts<P, K>(PhantomData<(P, K)>);

impl<P: GracePlan, K: ChainRule> Play<CallbackId, View> for Cuts<P, K> {
    ghost then = { cuts P.QSBR K.allows };
}
