//! Values that are taken out of a lock and given back. A lock tells only the type of what it holds. So who takes one
//! compares its label with the wanted one. They always agree, which no clause says.

ghost use Rattle.std.specs.Prelude.{◌≡◌};

use std::sync::{Mutex, MutexGuard, Wait};

/// A value that shows which one it is.
pub(crate) trait Labelled<L> {
    ghost use Rattle.std.specs.Prelude.{◌≡◌, true};

    /// Which one it is.
    ghost label: { Self → L };

    /// Whether it is this one.
    fn has_label(&self, wanted: L) -> bool
        ensures { result ≡ true → label self.now ≡ wanted };
}

/// The value with this label out of its lock, to which it is to be given back. It waits for the lock, and for a value
/// that was taken out.
pub(crate) fn take<'t, L: Copy, T: Labelled<L> + Drop, R: Wait>(
    rt: &R,
    lock: &'t Mutex<Option<T>>,
    wanted: L,
) -> (MutexGuard<'t, Option<T>>, T)
    ensures { T.label result.1 ≡ wanted }
{
    for _ in rt.forever() {
        let mut place = lock.lock(rt);
        if let Some(value) = place.take() {
            if value.has_label(wanted) {
                return (place, value);
            }
            *place = Some(value);
        }
    }
    unreachable!()
}
