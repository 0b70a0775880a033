//! What `Handle` keeps, in a box, as its pointer.

ghost use Rattle.std.specs.Prelude.{◌≡◌, Option, Some, None};
ghost use Rattle.std.specs.Coded.{coded_option};
ghost use denote.RawPtr.{Ptr};
ghost use Rattle.boxed_handle.specs.Owned.{heap_token, owned_at};

use loose_box::Loose;
use std::alloc::Global;
use std::marker::Model;

/// The pointer to a value in a box of the heap, or null.
#[repr(C)]
#[derive(Drop)]
pub struct Kept<T> {
    pub(crate) at: *mut T,
    pub ghost value: { Option T } by { coded_option T.code },
}

impl<T> Model for Kept<T> {
    ghost also_owns = { λ h. owned_at heap_token T.row h.at h.value };
}

impl<T> Kept<T> {
    /// Null, which keeps nothing.
    pub fn empty() -> Kept<T>
        ensures { result.value ≡ None }
    {
        Kept {
            at: std::ptr::null_mut(),
        }
    }

    /// Keeps what is in the box.
    pub fn of(loose: Loose<T, Global>) -> Kept<T>
        ensures { result.value ≡ Some loose.value }
    {
        let Loose { at, alloc: _ } = loose;
        Kept { at }
    }

    /// Gives the box back.
    pub fn into_loose(self, alloc: Global) -> Loose<T, Global>
        requires { self.value ≡ None → ⊥ }
        ensures { self.value ≡ Some result.value }
    {
        let Kept { at } = self;
        Loose { at, alloc }
    }
}

// What it owns may cross.
unsafe impl<T: Send> Send for Kept<T> {}
