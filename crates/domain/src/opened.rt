//! How a domain is made.

ghost use Rattle.std.specs.Prelude.{◌≡◌, ◌<◌, ◌≤◌, [], IfErr, IfOk};
ghost use Rattle.live_words.specs.live_rule.Views.{first_view};
ghost use Rattle.domain.specs.Config.{is_supported, new_refusal, IsOf};

use crate::config::LiveConfig;
use gp_memb::GracePlan;
use live_words::{ChainRule, LiveSeat, LiveTable};
use rcu_model::Refusal;
use std::alloc::Global;

/// The words of a domain that has no name yet. A program picks the name, a type that is a `Site`, where it calls
/// `into_domain`.
#[derive(Drop)]
pub struct Opened<P: GracePlan, K: ChainRule> {
    /// The words.
    pub(crate) table: LiveTable<P, K>,
    pub(crate) seat: LiveSeat,
    pub ghost fresh: { (seat.table_id ≡ table.words.shared.table_id) × (seat.me ≡ (first_view table.words.shared.key, [])) × (0 < table.slots) × (1 ≤ table.queues) },
}

impl<P: GracePlan + Drop, K: ChainRule> Opened<P, K> {
    /// The words of a domain of this size.
    ///
    /// Refused with `BadConfig` exactly where a number is out of its limits, else with `Memory` where memory is
    /// refused.
    pub fn new(alloc: Global, config: LiveConfig) -> Result<Opened<P, K>, Refusal>
        ensures ok { IfOk result (λ o. IsOf config o.table.slots o.table.queues o.table.chains o.table.pool) }
        ensures err { IfErr result (λ e. e ≡ new_refusal config) }
    {
        if !config.is_supported() {
            return Err(Refusal::BadConfig);
        }
        let made = LiveTable::new(
            alloc,
            config.slots,
            config.chains,
            config.queues,
            config.pool,
        );
        let Ok((table, seat)) = made else {
            return Err(Refusal::Memory);
        };
        Ok(Opened { table, seat })
    }
}
