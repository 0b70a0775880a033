//! How a program gets a domain.

ghost use Rattle.std.specs.Prelude.{◌≡◌, IfErr, IfOk, true};
ghost use Rattle.rcu_model.specs.declared.refusal.Refusal.TheVariants.{Memory};
ghost use Rattle.rcu_hash.specs.domain.Config.{is_supported, new_refusal};
ghost use Rattle.rcu.specs.Naming.{Names};
ghost use Rattle.rcu.specs.Threads.{sizes_of};

use crate::program::Program;
use gp_memb::GracePlan;
use rcu_hash::{ChainRule, Deleter, LiveConfig, Opened, Site};
use rcu_model::Refusal;
use std::alloc::Global;
use std::marker::Brand;

/// Makes a domain of this size, and runs the program over it. Answers what that answers.
///
/// Refused with `BadConfig` exactly where a number is out of its limits, else with `Memory` where memory is refused;
/// then the program was not run, and comes back. It waits where the program does.
pub fn with_domain<P: GracePlan + Drop, K: ChainRule, D: Deleter, R, F: Program<P, K, D, R>>(
    rt: &R,
    alloc: Global,
    config: LiveConfig,
    program: F,
) -> Result<F::Out, (Refusal, F)>
    ensures supported { IfOk result (λ _. is_supported config ≡ true) }
    ensures answered { IfOk result (λ x. F.gives program (sizes_of config) x) }
    ensures refused { IfErr result (λ e. (e.0 ≡ new_refusal config) × (e.1 ≡ program)) }
{
    match Opened::<P, K>::new(alloc, config) {
        Ok(opened) => entered::<Brand, P, K, D, R, F>(rt, alloc, opened, program),
        Err(refusal) => Err((refusal, program)),
    }
}

// Gives the domain its type.
fn entered<B: Site, P: GracePlan + Drop, K: ChainRule, D: Deleter, R, F: Program<P, K, D, R>>(
    rt: &R,
    alloc: Global,
    opened: Opened<P, K>,
    program: F,
) -> Result<F::Out, (Refusal, F)>
    requires { Names B.Site opened }
    ensures answered { IfOk result (λ x. F.gives program B.sizes x) }
    ensures refused { IfErr result (λ e. (e.0 ≡ Memory) × (e.1 ≡ program)) }
{
    match opened.into_domain::<B, D>(alloc) {
        Ok((domain, first)) => Ok(program.run::<B>(rt, alloc, &domain, first)),
        Err(refusal) => Err((refusal, program)),
    }
}
