//! Which callback was queued.
ghost use Rattle.std.specs.Prelude.{◌≡◌};
ghost use base.Fml.{feq, ftrue};
ghost use base.Stored.{Gv};
ghost use denote.Struct.Codes.{itself};

use std::marker::{Model, PhantomData, Send, Sync};

/// Which value of its type a callback is, by the code that the logic has for each value of a type. Two values of one
/// type never have the same code. It has no bytes: only proofs know the code.
pub struct CallbackId {
    marker: PhantomData<()>,
    pub ghost code: { Gv } by { itself },
}

impl Model for CallbackId {
    ghost also_owns = { λ _. ftrue };
}

unsafe impl Send for CallbackId {}

unsafe impl Sync for CallbackId {}

impl Drop for CallbackId {
    fn drop(self) {
        let Self { marker: _ } = self;
    }
}

/// A value as proofs know it, with its code. It has no bytes.
pub struct Identity<T> {
    marker: PhantomData<T>,
    pub ghost value: { T },
    pub ghost code: { Gv } by { itself },
}

impl<T> Model for Identity<T> {
    // The code is the value's.
    ghost also_owns = { λ i. feq Gv i.code (T.row.coded.code i.value) };
}

impl<T> Identity<T> {
    /// Of this value.
    pub fn of(value: &T) -> Identity<T>
        ensures { (result.value ≡ value.now) × (result.code ≡ T.row.coded.code value.now) }
    {
        let _ = value;
        Identity {
            marker: PhantomData,
        }
    }

    /// The code alone, whatever the type.
    pub fn id(&self) -> CallbackId
        ensures { result.code ≡ self.now.code }
    {
        let _ = self;
        CallbackId {
            marker: PhantomData,
        }
    }

    /// Tells that the code is the value's.
    pub fn tells(self)
        ensures { self.code ≡ T.row.coded.code self.value }
    {
        let Identity { marker: _ } = self;
    }
}

unsafe impl<T> Send for Identity<T> {}

unsafe impl<T> Sync for Identity<T> {}

impl<T> Drop for Identity<T> {
    fn drop(self) {
        let Self { marker: _ } = self;
    }
}
