//! What each step of a reader tells.
ghost use Rattle.step_readers.specs.Sections.{announces, closes, looked_present, looked_slot, nests, opens, stored};

use atomic_table::Play;
use live_rule::{CallbackId, ChainRule, GracePlan, View};
use std::marker::PhantomData;

pub(crate) struct LooksPresent<P, K>(PhantomData<(P, K)>);

impl<P: GracePlan, K: ChainRule> Play<CallbackId, View> for LooksPresent<P, K> {
    ghost then = { looked_present P.QSBR K.allows };
}

pub(crate) struct LooksSlot<P, K>(PhantomData<(P, K)>);

impl<P: GracePlan, K: ChainRule> Play<CallbackId, View> for LooksSlot<P, K> {
    ghost then = { looked_slot P.QSBR K.allows };
}

pub(crate) struct Opens<P, K>(PhantomData<(P, K)>);

impl<P: GracePlan, K: ChainRule> Play<CallbackId, View> for Opens<P, K> {
    ghost then = { stored P.QSBR K.allows (opens P.QSBR) };
}

pub(crate) struct Nests<P, K>(PhantomData<(P, K)>);

impl<P: GracePlan, K: ChainRule> Play<CallbackId, View> for Nests<P, K> {
    ghost then = { stored P.QSBR K.allows (nests P.QSBR) };
}

pub(crate) struct Closes<P, K>(PhantomData<(P, K)>);

impl<P: GracePlan, K: ChainRule> Play<CallbackId, View> for Closes<P, K> {
    ghost then = { stored P.QSBR K.allows (closes P.QSBR) };
}

pub(crate) struct Announces<P, K>(PhantomData<(P, K)>);

impl<P: GracePlan, K: ChainRule> Play<CallbackId, View> for Announces<P, K> {
    ghost then = { stored P.QSBR K.allows (announces P.QSBR) };
}
