//! Why a run told no counts.

ghost use Rattle.torture_run.specs.declared.fault.RunFault.TheVariants as run_faults;
ghost use Rattle.std.specs.Prelude.{◌≡◌};
ghost use Rattle.torture_run.specs.Running.{fault_of};

use rcu_model::Refusal;
use std::alloc::AllocError;
use thiserror::Error;

/// Why a run told no counts.
#[derive(Clone, Copy, Debug, PartialEq, Eq, Drop, Error)]
pub enum RunFault {
    /// The writer failed, or took nothing. What it took before is a beginning of the line.
    #[error("write fault")]
    Write,
    /// The allocator refused.
    #[error("no memory")]
    Memory,
    /// A thread was refused what no thread should be.
    #[error("refused: {0}")]
    Refused(Refusal),
}

impl From<AllocError> for RunFault {
    ghost from_gives = { λ _ e. e ≡ run_faults.Memory };

    fn from(_e: AllocError) -> RunFault {
        RunFault::Memory
    }
}

/// The fault of a refusal.
pub(crate) fn fault_of(refusal: Refusal) -> RunFault
    ensures { result ≡ fault_of refusal }
{
    match refusal {
        Refusal::Memory => RunFault::Memory,
        _ => RunFault::Refused(refusal),
    }
}
