//! Limits that one thread replaces while others read them: none finds mixed ones, or older ones after newer.

use crate::newest::Newest;
use rcu::{AnyChain, Domain, Handle, Memb, NoCallback, Refusal, Site, Slot, Threaded, with_reader};
use std::alloc::Global;
use std::sync::Wait;

/// The last lower limit.
pub(crate) const LAST: u64 = 200;

/// Thread 0 replaces the limits, and the others read them.
pub(crate) struct Server;

impl<R: Wait> Threaded<Memb, AnyChain, NoCallback, R> for Server {
    ghost use Rattle.std.specs.Prelude.{◌≡◌, IfOk};

    type Out = Result<u64, Refusal>;

    // What thread 0 found last where nothing is refused, which `with_threads` tells of its first answer.
    ghost gives = { λ _ _ number answer. number ≡ 0 → IfOk answer (λ lower. lower ≡ 200) };

    fn part<B: Site>(
        &self,
        rt: &R,
        _alloc: Global,
        domain: &Domain<Memb, AnyChain, B, NoCallback>,
        mut own: Handle<B>,
        number: usize,
    ) -> Result<u64, Refusal> {
        if number != 0 {
            return with_reader(rt, domain, &mut own, &Newest)?;
        }
        let limits = Slot::new(domain, 0, (0, 1))?;
        for lower in 1..LAST + 1 {
            let replaced = limits.replace(rt, &mut own, (lower, lower + 1), NoCallback);
            replaced.map_err(|refused| refused.0)?;
        }
        Ok(LAST)
    }
}
