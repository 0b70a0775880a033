//! A judge in a box, as a pointer that C keeps.

ghost use Rattle.std.specs.Prelude.{◌≡◌, Option, Some, None};
ghost use Rattle.std.specs.Coded.{coded_option};
ghost use denote.RawPtr.{Ptr};
ghost use Rattle.boxed_handle.specs.Owned.{heap_token, owned_at};
ghost use Rattle.judging.specs.declared.text_judge.TextJudge.{TextJudge};
ghost use Rattle.judging.specs.contracts.text_judge.TextJudge.{the_row};

use judging::TextJudge;
use loose_box::Loose;
use std::alloc::Global;
use std::marker::Model;

/// The pointer to a judge in a box of the heap, or null.
#[repr(C)]
#[derive(Drop)]
pub struct Kept {
    at: *mut u8,
    pub ghost value: { Option TextJudge } by { coded_option the_row.coded },
}

impl Model for Kept {
    ghost also_owns = { λ h. owned_at heap_token the_row h.at h.value };
}

impl Kept {
    /// Null, which keeps nothing.
    pub fn empty() -> Kept
        ensures { result.value ≡ None }
    {
        Kept {
            at: std::ptr::null_mut(),
        }
    }

    /// Keeps the judge of the box.
    pub fn of(loose: Loose<TextJudge, Global>) -> Kept
        ensures { result.value ≡ Some loose.value }
    {
        let Loose { at, alloc: _ } = loose;
        Kept { at: at as *mut u8 }
    }

    /// Gives the box back.
    pub fn into_loose(self, alloc: Global) -> Loose<TextJudge, Global>
        requires { self.value ≡ None → ⊥ }
        ensures { self.value ≡ Some result.value }
    {
        let Kept { at } = self;
        Loose {
            at: at as *mut TextJudge,
            alloc,
        }
    }
}

// What it owns may cross.
unsafe impl Send for Kept {}
