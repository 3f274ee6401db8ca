//! Searches by halving among living snapshots.

ghost use Rattle.std.specs.Prelude.{◌≡◌, ℕ, ◌-◌, ◌<◌, ◌≤◌, length, slice_index, slice_index_or, Some, None, IfSome, IfNone};
ghost use Rattle.nv_epoch.specs.Holders.{IsRising, next_older};
ghost use Rattle.nv_epoch.specs.SnapList.{numbers, pins_at};
ghost use Rattle.nv_epoch.specs.declared.snapshot.Snapshot.{Snapshot};

use crate::Snapshot;
use nv_base::Epoch;

/// How many of the snapshots are below the bound.
fn count_below(living: &[Snapshot], bound: Epoch) -> usize
    requires { IsRising (numbers living.now) }
    ensures in_range { result ≤ length living.now }
    ensures older { (k : ℕ) → k < result → slice_index (numbers living.now) k < bound }
    ensures others { (k : ℕ) → result ≤ k → k < length living.now
        → bound ≤ slice_index (numbers living.now) k }
{
    living.partition_point(|s| s.number < bound)
}

/// The youngest of the snapshots below the bound.
pub fn youngest_below(living: &[Snapshot], bound: Epoch) -> Option<Epoch>
    requires { IsRising (numbers living.now) }
    ensures { result ≡ next_older (numbers living.now) bound }
{
    let count = count_below(living, bound);
    if count == 0 {
        return None;
    }
    Some(living[count - 1].number)
}

/// The place of the snapshot `s`, if it is there.
pub fn place_of(living: &[Snapshot], s: Epoch) -> Option<usize>
    requires { IsRising (numbers living.now) }
    ensures in_range { IfSome result (λ place. place < length living.now) }
    ensures found { IfSome result (λ place. slice_index (numbers living.now) place ≡ s) }
    ensures pins { IfSome result (λ place. (d : Snapshot) →
        pins_at living.now s ≡ Some (slice_index_or living.now place d).pins) }
    ensures oldest { IfSome result (λ place. place ≡ 0 → next_older (numbers living.now) s ≡ None) }
    ensures older { IfSome result (λ place. 0 < place →
        next_older (numbers living.now) s ≡ Some (slice_index (numbers living.now) (place - 1))) }
    ensures absent { IfNone result (pins_at living.now s ≡ None) }
{
    let place = count_below(living, s);
    if place < living.len() && living[place].number == s {
        return Some(place);
    }
    None
}
