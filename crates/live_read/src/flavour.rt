//! Of which flavour a plan is.

ghost use Rattle.std.specs.Prelude.{◌≡◌};

use gp_memb::GracePlan;
use std::marker::PhantomData;

/// A type with this field may speak of the plan's flavour, though it owns memory. It has no bytes.
#[derive(Drop)]
pub(crate) struct Flavour<P: GracePlan> {
    plan: PhantomData<P>,
    pub(crate) ghost same: { P.QSBR ≡ P.QSBR },
}

impl<P: GracePlan> Flavour<P> {
    pub(crate) fn new() -> Flavour<P> {
        Flavour { plan: PhantomData }
    }
}
