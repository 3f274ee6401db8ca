//! Why bytes are no record.

ghost use Rattle.std.specs.Prelude.{◌≡◌};
ghost use Rattle.nv_records.specs.declared.fault.FieldError.TheVariants.{Memory as NoMemory};

use std::alloc::{AllocError, AllocFailed};

/// What was wanted at the place of a fault.
#[derive(Clone, Copy, Debug, PartialEq, Eq)]
pub enum Wanted {
    /// The tag of a record.
    Tag,
    /// A number: eight bytes.
    Number,
    /// A number that is at most the greatest mode.
    Mode,
    /// As many bytes as the length before them says.
    Text,
}

/// What the bytes lack, and where.
#[derive(Clone, Copy, Debug, PartialEq, Eq)]
pub struct Fault {
    pub wanted: Wanted,
    /// How many bytes stand before it.
    pub place: usize,
}

/// Why no record was read.
#[derive(Clone, Copy, Debug, PartialEq, Eq)]
pub enum ReadError {
    /// Memory was refused.
    Memory,
    /// The bytes begin with no record.
    Fault(Fault),
}

/// What a field lacks, and how many bytes are left where it should stand.
#[derive(Clone, Copy)]
pub(crate) struct Lack {
    pub(crate) wanted: Wanted,
    pub(crate) left: usize,
}

/// Why no field was read.
#[derive(Clone, Copy)]
pub(crate) enum FieldError {
    Memory,
    Lack(Lack),
}

impl From<AllocError> for FieldError {
    ghost from_gives = { λ _ error. error ≡ NoMemory };

    fn from(_error: AllocError) -> FieldError {
        FieldError::Memory
    }
}

impl<T: Drop> From<AllocFailed<T>> for FieldError {
    ghost from_gives = { λ _ error. error ≡ NoMemory };

    fn from(_error: AllocFailed<T>) -> FieldError {
        FieldError::Memory
    }
}
