//! What each step on a record tells.
ghost use Rattle.step_records.specs.Records.{discarded, linked, looked, looked_fresh, looked_payload, numbered, ran, retired, took, worded};

use atomic_table::Play;
use live_rule::{CallbackId, ChainRule, GracePlan, View};
use std::marker::PhantomData;

pub(crate) struct LooksHeader<P, K>(PhantomData<(P, K)>);

impl<P: GracePlan, K: ChainRule> Play<CallbackId, View> for LooksHeader<P, K> {
    ghost then = { looked P.QSBR K.allows };
}

pub(crate) struct LooksNumber<P, K>(PhantomData<(P, K)>);

impl<P: GracePlan, K: ChainRule> Play<CallbackId, View> for LooksNumber<P, K> {
    ghost then = { numbered P.QSBR K.allows };
}

pub(crate) struct Takes<P, K>(PhantomData<(P, K)>);

impl<P: GracePlan, K: ChainRule> Play<CallbackId, View> for Takes<P, K> {
    ghost then = { took P.QSBR K.allows };
}

pub(crate) struct StoresLink<P, K>(PhantomData<(P, K)>);

impl<P: GracePlan, K: ChainRule> Play<CallbackId, View> for StoresLink<P, K> {
    ghost then = { linked P.QSBR K.allows };
}

pub(crate) struct StoresWord<P, K>(PhantomData<(P, K)>);

impl<P: GracePlan, K: ChainRule> Play<CallbackId, View> for StoresWord<P, K> {
    ghost then = { worded P.QSBR K.allows };
}

pub(crate) struct LooksFresh<P, K>(PhantomData<(P, K)>);

impl<P: GracePlan, K: ChainRule> Play<CallbackId, View> for LooksFresh<P, K> {
    ghost then = { looked_fresh P.QSBR K.allows };
}

pub(crate) struct Discards<P, K>(PhantomData<(P, K)>);

impl<P: GracePlan, K: ChainRule> Play<CallbackId, View> for Discards<P, K> {
    ghost then = { discarded P.QSBR K.allows };
}

pub(crate) struct Retires<P, K>(PhantomData<(P, K)>);

impl<P: GracePlan, K: ChainRule> Play<CallbackId, View> for Retires<P, K> {
    ghost then = { retired P.QSBR K.allows };
}

pub(crate) struct Runs<P, K>(PhantomData<(P, K)>);

impl<P: GracePlan, K: ChainRule> Play<CallbackId, View> for Runs<P, K> {
    ghost then = { ran P.QSBR K.allows };
}

pub(crate) struct LooksPayload<P, K>(PhantomData<(P, K)>);

impl<P: GracePlan, K: ChainRule> Play<CallbackId, View> for LooksPayload<P, K> {
    ghost then = { looked_payload P.QSBR K.allows };
}
