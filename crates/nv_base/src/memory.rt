//! That memory was refused.

ghost use Rattle.std.specs.Prelude.{◌≡◌, ◌<◌};
ghost use Rattle.nv_base.specs.Memory.{no_memory};
ghost use Rattle.nv_base.specs.declared.limits.TheConstants.{NUMBER};

use std::alloc::{AllocError, AllocFailed};

/// A growth of memory was refused. Only the library's own error of a refused growth gives one, or a count that no memory
/// holds, since no other module reaches the field.
/// Its maker had an error of a refused growth, or a count of more than 2^62 things.
#[derive(Clone, Copy, Debug, PartialEq, Eq)]
pub struct NoMemory {
    refused: (),
}

impl NoMemory {
    /// What stands for the refusal of more than 2^62 things at once: no memory holds as many.
    pub fn for_as_many(_count: u64) -> NoMemory
        // Only a count above 2^62 stands for a refused growth.
        requires { NUMBER < _count }
        ensures { result ≡ no_memory }
    {
        NoMemory { refused: () }
    }
}

impl From<AllocError> for NoMemory {
    ghost from_gives = { λ _ witness. witness ≡ no_memory };

    fn from(_error: AllocError) -> NoMemory {
        NoMemory { refused: () }
    }
}

impl<T: Drop> From<AllocFailed<T>> for NoMemory {
    ghost from_gives = { λ _ witness. witness ≡ no_memory };

    fn from(_error: AllocFailed<T>) -> NoMemory {
        NoMemory { refused: () }
    }
}
