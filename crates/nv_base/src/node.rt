//! What kind of node an inode is, and its mode.

ghost use Rattle.std.specs.Prelude.{◌≡◌, ◌≤◌};
ghost use Rattle.std.specs.Option.{SomeIff};
ghost use Rattle.nv_base.specs.declared.limits.TheConstants.{MODE};

use crate::limits;
use std::marker::Model;

/// A file has bytes, and a directory has names.
#[derive(Clone, Copy, Debug, PartialEq, Eq)]
pub enum Kind {
    File,
    Dir,
}

/// A mode, 0 to 4,095. It is stored and not enforced.
#[derive(Clone, Copy, Debug, PartialEq, Eq, PartialOrd, Ord)]
pub struct Mode {
    bits: u16,
}

impl Model for Mode {
    ghost use Rattle.std.specs.Prelude.{ℕ, ◌≤◌};
    ghost use Rattle.nv_base.specs.declared.limits.TheConstants.{MODE};

    ghost Value = { ℕ };

    ghost view = { λ m. m.bits };

    ghost inverse = { λ n. record { bits = n } };

    // It is at most 4,095.
    ghost invariant = { λ m. m.bits ≤ MODE };
}

impl Mode {
    /// The mode of these bits, or `None` above 4,095.
    pub fn checked(bits: u16) -> Option<Mode>
        // Modes are exactly the numbers 0 to 4,095.
        ensures { SomeIff result (bits ≤ MODE) bits }
    {
        if bits <= limits::MODE {
            return Some(Mode { bits });
        }
        None
    }

    /// The number of the mode, at most 4,095.
    pub fn bits(self) -> u16
        ensures value { result ≡ self }
        ensures limit { result ≤ MODE }
    {
        self.bits
    }
}
