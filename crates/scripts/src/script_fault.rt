//! Faults of a script.

ghost use Rattle.std.specs.Prelude.{◌≡◌};
ghost use Rattle.scripts.specs.declared.script_fault.ScriptFault.TheVariants.{OutOfMemory};

use std::alloc::AllocError;

/// Reason why a script was rejected. Lines count from 1, skipped ones too.
#[derive(Clone, Copy, Debug, PartialEq, Eq)]
pub enum ScriptFault {
    /// The line with this number is wrong.
    BadLine(u64),
    /// Memory was refused.
    OutOfMemory,
}

impl From<AllocError> for ScriptFault {
    ghost from_gives = { λ _ fault. fault ≡ OutOfMemory };

    fn from(_: AllocError) -> Self {
        ScriptFault::OutOfMemory
    }
}
