//! How a domain gets its name.

ghost use Rattle.std.specs.Prelude.{◌≡◌, [], IfErr, IfOk};
ghost use Rattle.rcu_model.specs.declared.refusal.Refusal.TheVariants.{Memory};
ghost use Rattle.domain.specs.Naming.{Names};

use crate::domain::Domain;
use crate::grace_lock::GraceLock;
use crate::opened::Opened;
use crate::queue::queues_of;
use gp_memb::GracePlan;
use live_callbacks::Deleter;
use live_read::{Handle, Site};
use live_words::ChainRule;
use rcu_model::Refusal;
use std::alloc::Global;
use std::sync::{Arc, Mutex};

impl<P: GracePlan + Drop, K: ChainRule> Opened<P, K> {
    /// The domain under this name, and the first handle, which has seen nothing yet. `B` is a type that stands for this
    /// domain alone. `D` is what is called with each object that is reclaimed: the boxed `Callback`, or a type of the
    /// program's own.
    ///
    /// A program picks `B` as `std::marker::Brand` where it calls a function that is generic in it, and one line of
    /// a proof says so. Where `start` calls `serve`, that line of `proofs/start/Invariants.antt` is
    /// `ghosts-serve g a = names a.opened`; docs/USING.md has the whole file.
    ///
    /// Refused with `Memory` where memory is.
    pub fn into_domain<B: Site, D: Deleter>(
        self,
        alloc: Global,
    ) -> Result<(Domain<P, K, B, D>, Handle<B>), Refusal>
        requires { Names B.Site self }
        ensures ok { IfOk result (λ made. (made.1.seat.me.0.seen ≡ []) × (made.1.seat.me.0.heard ≡ [])) }
        ensures err { IfErr result (λ e. e ≡ Memory) }
    {
        let Opened { table, mut seat } = self;
        let Ok(table) = Arc::new(alloc, table) else {
            return Err(Refusal::Memory);
        };
        let grace = GraceLock::new(table.cut_grace(&mut seat));
        let Ok(queues) = queues_of(alloc, &table, &mut seat) else {
            return Err(Refusal::Memory);
        };
        let handle = Handle::new(table.tell(&mut seat));
        Ok((
            Domain {
                table,
                grace: Mutex::new(grace),
                queues,
            },
            handle,
        ))
    }
}
