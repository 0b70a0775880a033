//! A handle that keeps one value or none, and what is taken out of it and put back.

ghost use Rattle.std.specs.Prelude.{◌≡◌, Some, None, IfSome, IfNone, is_some};

use crate::kept::Kept;
use loose_box::Loose;
use std::alloc::Global;
use std::mem;

/// A value in a box, or none. All zeros keeps nothing.
#[repr(C)]
#[derive(Drop)]
pub struct Handle<T> {
    /// Whether it keeps something.
    pub full: bool,
    /// What it keeps.
    pub kept: Kept<T>,
    pub ghost told: { full ≡ is_some kept.value },
}

/// Takes out what it keeps, and leaves nothing. `None` where there is none.
#[inline(always)]
pub fn take<T: Drop>(alloc: Global, handle: &mut Handle<T>) -> Option<Box<T, Global>>
    ensures empty { handle.new.kept.value ≡ None }
    ensures gives { IfSome result (λ b. handle.old.kept.value ≡ Some b.value) }
    ensures nothing { IfNone result (handle.old.kept.value ≡ None) }
{
    let empty = Handle {
        full: false,
        kept: Kept::empty(),
    };
    let Handle { full, kept } = mem::replace(handle, empty);
    if !full {
        return None;
    }
    Some(kept.into_loose(alloc).into_box())
}

/// Puts something into an empty handle.
#[inline(always)]
pub fn put<T: Drop>(handle: &mut Handle<T>, kept: Box<T, Global>)
    requires { handle.old.kept.value ≡ None }
    ensures { handle.new.kept.value ≡ Some kept.value }
{
    *handle = Handle {
        full: true,
        kept: Kept::of(Loose::of(kept)),
    };
}
