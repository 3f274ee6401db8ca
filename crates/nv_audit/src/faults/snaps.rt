//! The fault `snaps`: snapshots that don't rise, or are not before the epoch.

ghost use Rattle.std.specs.Prelude.{◌↔◌, ◌<◌, ℕ, All, IsTrue};
ghost use Rattle.nv_epoch.specs.Holders.{IsRising};
ghost use Rattle.nv_audit.specs.Faults.{AreSnapsGood};

use crate::Image;
use nv_base::Epoch;

/// Whether the numbers of the living snapshots rise, and are below the epoch. Costs two looks at each.
pub(crate) fn are_snaps_good(image: &Image) -> bool
    ensures { IsTrue result ↔ AreSnapsGood image.now }
{
    rise_below(image.epoch, &image.snapshots)
}

/// Whether these rise, and are below an epoch.
fn rise_below(epoch: Epoch, snapshots: &[Epoch]) -> bool
    ensures { IsTrue result ↔ (IsRising snapshots.now
        × All (λ (snapshot : ℕ). snapshot < epoch) snapshots.now) }
{
    are_rising(snapshots) && are_below(epoch, snapshots)
}

fn are_rising(snapshots: &[Epoch]) -> bool
    ensures { IsTrue result ↔ IsRising snapshots.now }
{
    for place in 1..snapshots.len() {
        if !is_before(snapshots[place - 1], snapshots[place]) {
            return false;
        }
    }
    true
}

fn is_before(one: Epoch, other: Epoch) -> bool
    ensures { IsTrue result ↔ (one < other) }
{
    one < other
}

fn are_below(epoch: Epoch, snapshots: &[Epoch]) -> bool
    ensures { IsTrue result ↔ All (λ (snapshot : ℕ). snapshot < epoch) snapshots.now }
{
    snapshots.iter().all(|snapshot| *snapshot < epoch)
}
