//! What each step of a grace period tells.
ghost use Rattle.step_grace.specs.Periods.{began, ended, looked_seq, looked_word, presented};

use atomic_table::Play;
use live_rule::{CallbackId, ChainRule, GracePlan, View};
use std::marker::PhantomData;

pub(crate) struct LooksSeq<P, K>(PhantomData<(P, K)>);

impl<P: GracePlan, K: ChainRule> Play<CallbackId, View> for LooksSeq<P, K> {
    ghost then = { looked_seq P.QSBR K.allows };
}

pub(crate) struct LooksWord<P, K>(PhantomData<(P, K)>);

impl<P: GracePlan, K: ChainRule> Play<CallbackId, View> for LooksWord<P, K> {
    ghost then = { looked_word P.QSBR K.allows };
}

pub(crate) struct Begins<P, K>(PhantomData<(P, K)>);

impl<P: GracePlan, K: ChainRule> Play<CallbackId, View> for Begins<P, K> {
    ghost then = { began P.QSBR K.allows };
}

pub(crate) struct StoresPresent<P, K>(PhantomData<(P, K)>);

impl<P: GracePlan, K: ChainRule> Play<CallbackId, View> for StoresPresent<P, K> {
    ghost then = { presented P.QSBR K.allows };
}

pub(crate) struct Ends<P, K>(PhantomData<(P, K)>);

impl<P: GracePlan, K: ChainRule> Play<CallbackId, View> for Ends<P, K> {
    ghost then = { ended P.QSBR K.allows };
}
