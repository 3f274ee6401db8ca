//! Why a request is refused.

ghost use Rattle.std.specs.Prelude.{◌≡◌};
ghost use Rattle.nv_mount_beside.specs.Memory.{no_memory};
ghost use Rattle.nv_mount_beside.specs.Names.{errno_told};
ghost use Rattle.nv_mount_beside.specs.declared.refusal.Refusal.TheVariants as refusals;

use nv_base::Fault;
use nv_fuse::Errno;
use nv_mount_answers::errno_of;
use std::alloc::{AllocError, AllocFailed};

/// Why a request is refused.
#[derive(Clone, Copy, Debug, PartialEq, Eq)]
pub enum Refusal {
    /// The world refused a call, or memory was refused.
    Fault(Fault),
    /// The mount itself refuses it.
    Errno(Errno),
}

impl Refusal {
    /// The error by which it is told.
    pub fn errno(self) -> Errno
        // A fault is told as the table of faults tells it, and an error of the mount's own as it is.
        ensures { result ≡ errno_told self }
    {
        match self {
            Refusal::Fault(fault) => errno_of(fault),
            Refusal::Errno(errno) => errno,
        }
    }
}

impl From<Fault> for Refusal {
    ghost from_gives = { λ fault refusal. refusal ≡ refusals.Fault fault };

    fn from(fault: Fault) -> Refusal {
        Refusal::Fault(fault)
    }
}

impl From<Errno> for Refusal {
    ghost from_gives = { λ error refusal. refusal ≡ refusals.Errno error };

    fn from(errno: Errno) -> Refusal {
        Refusal::Errno(errno)
    }
}

impl From<AllocError> for Refusal {
    ghost from_gives = { λ _ refusal. refusal ≡ no_memory };

    fn from(error: AllocError) -> Refusal {
        Refusal::Fault(Fault::from(error))
    }
}

impl<T: Drop> From<AllocFailed<T>> for Refusal {
    ghost from_gives = { λ _ refusal. refusal ≡ no_memory };

    fn from(error: AllocFailed<T>) -> Refusal {
        Refusal::Fault(Fault::from(error))
    }
}
