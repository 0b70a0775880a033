//! The handle of C, and the judge that is taken out of it and put back.

ghost use Rattle.std.specs.Prelude.{◌≡◌, Some, None, IfSome, IfNone, is_some};

use crate::kept::Kept;
use judging::TextJudge;
use loose_box::Loose;
use std::alloc::Global;
use std::mem;

/// `struct robiniagolf_judge`. All zeros keeps nothing.
#[repr(C)]
#[derive(Drop)]
pub struct JudgeHandle {
    /// Whether it keeps a judge.
    pub full: bool,
    pub kept: Kept,
    ghost told: { full ≡ is_some kept.value },
}

fn crosses<T: Send>(_handle: &T) {}

/// C may hand it to another thread.
pub fn handle_crosses(handle: &JudgeHandle) {
    crosses(handle);
}

/// Takes the judge out, and leaves nothing. `None` where there is none.
pub fn take_judge(alloc: Global, handle: &mut JudgeHandle) -> Option<Box<TextJudge, Global>>
    ensures empty { handle.new.kept.value ≡ None }
    ensures gives { IfSome result (λ b. handle.old.kept.value ≡ Some b.value) }
    ensures nothing { IfNone result (handle.old.kept.value ≡ None) }
{
    let empty = JudgeHandle {
        full: false,
        kept: Kept::empty(),
    };
    let JudgeHandle { full, kept } = mem::replace(handle, empty);
    if !full {
        return None;
    }
    Some(kept.into_loose(alloc).into_box())
}

/// Puts a judge into an empty handle.
pub fn put_judge(handle: &mut JudgeHandle, judge: Box<TextJudge, Global>)
    requires { handle.old.kept.value ≡ None }
    ensures { handle.new.kept.value ≡ Some judge.value }
{
    *handle = JudgeHandle {
        full: true,
        kept: Kept::of(Loose::of(judge)),
    };
}
