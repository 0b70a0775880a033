//! Words with which one bit is set or cleared.
ghost use Rattle.std.specs.Prelude.{◌<◌};
ghost use Rattle.step_readers.specs.Groups.{ClearsBit, SetsBit};

/// The word with this bit alone.
pub(crate) fn bit_alone(bit: usize) -> u64
    requires { bit < 64 }
    ensures { SetsBit bit result }
{
    1 << bit
}

/// The word with all bits but this one.
pub(crate) fn all_bits_but(bit: usize) -> u64
    requires { bit < 64 }
    ensures { ClearsBit bit result }
{
    !(1 << bit)
}
