//! How views begin, and how they are cut and joined.
ghost use Rattle.live_rule.specs.Seats.{but_chains, but_first_queue, but_grace, but_lent, but_object, chains_alone, changed_view, first_queue, grace_alone, heard_changes_view, heard_view, lent_alone, merged, object_alone, taken_view, told_view};
ghost use Rattle.live_rule.specs.Views.{spent_view};
ghost use Rattle.live_rule.specs.Steps.{entered};

use crate::view::View;
use atomic_table::{Join, Play, Split};
use gp_memb::GracePlan;
use live_log::{CallbackId, ChainRule};
use std::marker::PhantomData;

pub(crate) struct NewSeat<P, K>(PhantomData<(P, K)>);

impl<P: GracePlan, K: ChainRule> Play<CallbackId, View> for NewSeat<P, K> {
    ghost then = { entered P.QSBR K.allows };
}

pub(crate) struct Tell;

impl Split<View> for Tell {
    ghost left = { λ v. v };

    ghost right = { told_view };
}

pub(crate) struct TellChanges;

impl Split<View> for TellChanges {
    ghost left = { λ v. v };

    ghost right = { changed_view };
}

pub(crate) struct CutGrace;

impl Split<View> for CutGrace {
    ghost left = { but_grace };

    ghost right = { grace_alone };
}

pub(crate) struct CutSpareQueue;

impl Split<View> for CutSpareQueue {
    ghost left = { but_first_queue };

    ghost right = { first_queue };
}

pub(crate) struct CutObject;

impl Split<View> for CutObject {
    ghost left = { but_object };

    ghost right = { object_alone };
}

pub(crate) struct CutChains;

impl Split<View> for CutChains {
    ghost left = { but_chains };

    ghost right = { chains_alone };
}

pub(crate) struct CutLentChains;

impl Split<View> for CutLentChains {
    ghost left = { but_lent };

    ghost right = { lent_alone };
}

pub(crate) struct Learn;

impl Join<View> for Learn {
    ghost both = { heard_view };

    ghost spent = { spent_view };
}

pub(crate) struct LearnChanges;

impl Join<View> for LearnChanges {
    ghost both = { heard_changes_view };

    ghost spent = { spent_view };
}

pub(crate) struct JoinAll;

impl Join<View> for JoinAll {
    ghost both = { merged };

    ghost spent = { spent_view };
}

pub(crate) struct TakeObject;

impl Join<View> for TakeObject {
    ghost both = { taken_view };

    ghost spent = { spent_view };
}
