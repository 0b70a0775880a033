//! The rule of the table.

use crate::view::{Sizes, View};
use atomic_table::{Seat, TableRule};
use gp_memb::GracePlan;
use live_log::{CallbackId, ChainRule};
use std::marker::PhantomData;

/// The rule of a table for grace periods by the plans `P`, whose chains keep the rule `K`: the words say what the log
/// says, the log is a run, of each thing one seat at most has the right, and what a seat knows is so.
pub struct LiveRule<P, K>(PhantomData<(P, K)>);

impl<P: GracePlan, K: ChainRule> TableRule<CallbackId, View, Sizes> for LiveRule<P, K> {
    ghost use Rattle.live_rule.specs.Rule.{KeepsRule};
    ghost use Rattle.live_rule.specs.Views.{first_view};

    ghost holds = { λ key s. KeepsRule P.QSBR K.allows key s };

    ghost first = { first_view };
}

/// A seat of the table, with which a thread makes its steps. It has no bytes.
pub type LiveSeat = Seat<CallbackId, View>;
