//! What a step on a group word tells.
ghost use Rattle.step_readers.specs.Groups.{claimed, looked_group, released};

use atomic_table::Play;
use live_rule::{CallbackId, ChainRule, GracePlan, View};
use std::marker::PhantomData;

pub(crate) struct LooksGroup<P, K>(PhantomData<(P, K)>);

impl<P: GracePlan, K: ChainRule> Play<CallbackId, View> for LooksGroup<P, K> {
    ghost then = { looked_group P.QSBR K.allows };
}

pub(crate) struct Claims<P, K>(PhantomData<(P, K)>);

impl<P: GracePlan, K: ChainRule> Play<CallbackId, View> for Claims<P, K> {
    ghost then = { claimed P.QSBR K.allows };
}

pub(crate) struct Releases<P, K>(PhantomData<(P, K)>);

impl<P: GracePlan, K: ChainRule> Play<CallbackId, View> for Releases<P, K> {
    ghost then = { released P.QSBR K.allows };
}
