//! `lend` has a file of its own: its clause names the row of `Kept`, which the file that declares it cannot import.

ghost use Rattle.std.specs.Prelude.{◌≡◌, Some, None};
ghost use types.Logic.{sem};
ghost use denote.Follow.{follows};
ghost use Rattle.boxed_handle.specs.contracts.kept.Kept.{the_row};
ghost use Rattle.boxed_handle.specs.Lent.{kept_with};

use crate::kept::Kept;

impl<T> Kept<T> {
    /// Lends what it keeps. When the borrow ends, it keeps what was written through it.
    #[inline(always)]
    pub fn lend(&mut self) -> &mut T
        requires { self.old.value ≡ None → ⊥ }
        ensures* writes_back { sem 𝓛 (follows (the_row T.row) T.row self.entry.ghost_name result.ghost_name (kept_with self.old)) }
        ensures value { self.old.value ≡ Some result.now }
    {
        unsafe { &mut *self.at }
    }
}
