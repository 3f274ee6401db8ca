//! Why a line ends the script.

ghost use Rattle.std.specs.Prelude.{◌≡◌};
ghost use Rattle.nv_script.specs.declared.fault.LineFault.TheVariants as line;
ghost use Rattle.nv_base.specs.Memory.{no_memory};

use crate::counted::WriteFailed;
use nv_base::{NoMemory, ScriptFaultKind};
use std::alloc::AllocError;

/// Why a line ends the script.
#[derive(Clone, Copy, Drop)]
pub enum LineFault {
    /// A growth of memory was refused.
    OutOfMemory(NoMemory),
    /// A write of its text failed.
    Write,
    /// The line has this fault.
    Faulty(ScriptFaultKind),
}

impl From<AllocError> for LineFault {
    ghost from_gives = { λ _ fault. fault ≡ line.OutOfMemory no_memory };

    fn from(error: AllocError) -> LineFault {
        LineFault::OutOfMemory(NoMemory::from(error))
    }
}

impl From<ScriptFaultKind> for LineFault {
    ghost from_gives = { λ kind fault. fault ≡ line.Faulty kind };

    fn from(kind: ScriptFaultKind) -> LineFault {
        LineFault::Faulty(kind)
    }
}

impl From<WriteFailed> for LineFault {
    ghost from_gives = { λ _ fault. fault ≡ line.Write };

    fn from(_error: WriteFailed) -> LineFault {
        LineFault::Write
    }
}
