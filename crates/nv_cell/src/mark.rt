//! What keeps a part in the log.

ghost use Rattle.std.specs.Prelude.{◌≡◌, ℕ, ◌&&◌, nat_le, nat_lt};
ghost use Rattle.std.specs.List.{list_any};
ghost use Rattle.std.specs.List.Sorted.{IsStrictlyIncreasing};
ghost use Rattle.nv_cell.specs.Anew.{mark_ended};
ghost use Rattle.nv_cell.specs.Marks.{is_current, is_there};

use nv_base::Epoch;

/// What keeps a part of a published entry.
#[derive(Clone, Copy, Debug, PartialEq, Eq)]
pub enum Mark {
    /// No later entry covers its key.
    Current,
    /// It is no longer current, and not yet retired.
    Killed,
    /// Retired and not yet released. A caller retires a part that it records: for a living snapshot that
    /// holds it, or as deferred.
    Kept,
    /// Nothing keeps it, and its block is gone.
    Out,
}

impl Mark {
    pub(crate) fn is_current(self) -> bool
        ensures { result ≡ is_current self }
    {
        match self {
            Mark::Current => true,
            Mark::Killed | Mark::Kept | Mark::Out => false,
        }
    }

    pub(crate) fn is_there(self) -> bool
        ensures { result ≡ is_there self }
    {
        match self {
            Mark::Current | Mark::Killed | Mark::Kept => true,
            Mark::Out => false,
        }
    }

    /// The mark of a part that lived from one epoch to another: kept where one of the living snapshots holds it. It
    /// costs the logarithm of their number.
    pub(crate) fn ended(living: &[Epoch], birth: Epoch, death: Epoch) -> Mark
        requires { IsStrictlyIncreasing living.now }
        ensures { result ≡ mark_ended living.now birth death }
    {
        if is_held(living, birth, death) {
            Mark::Kept
        } else {
            Mark::Out
        }
    }
}

/// Whether one of the snapshots is from the birth on, and before the death.
fn is_held(living: &[Epoch], birth: Epoch, death: Epoch) -> bool
    requires { IsStrictlyIncreasing living.now }
    ensures { result ≡ list_any (λ (s : ℕ). nat_le birth s && nat_lt s death) living.now }
{
    let first = living.partition_point(|s| *s < birth);
    let count = living.len();
    if count <= first {
        return false;
    }
    living[first] < death
}
