//! A law of the machine of steps on what cleaners leave of a log.

ghost use Rattle.std.specs.Prelude.{◌≡◌, ℕ, Bool, List, Some};
ghost use Rattle.nv_base.specs.declared.geometry.GeometryNumbers.{GeometryNumbers};
ghost use Rattle.nv_book.specs.declared.record.Record.{Record};
ghost use Rattle.nv_machine.specs.Starts.{IsStart};
ghost use Rattle.nv_machine.specs.Step.{after, step};
ghost use Rattle.nv_machine.specs.WhatStays.{IsCompacted, IsUnlinked};
ghost use Rattle.nv_machine.specs.World.{Compact, Event, Go, SnapshotOrCleaner, Running, Unlink, World, actor_at};

/// A step that compacts leaves of its slot's log what the walk by single entries leaves
/// ([`nv_entry::laws::thorough_takes_what_is_droppable`]), in order and on as few pages as that fills, and none of these
/// entries may go then. A step that unlinks leaves the pages that the walk by whole pages leaves
/// ([`nv_entry::laws::fast_takes_what_is_droppable`]). They stay in their blocks, and the pages without an entry stay
/// behind them. Both walks ask what keeps the pairs of the slot by the snapshot list, the deferred list and the records
/// that drains have picked, and not the marks, by which the steps go.
/// The walks go by the living snapshots and the deferred and picked records, not by the marks.
pub fn cleaners_leave_what_is_needed()
    // A compact leaves of its log exactly the entries that the walk by entries leaves, in order.
    // A compact leaves as few log pages as these entries fill.
    // None of the entries that a compact leaves may go.
    ensures compact { (g : GeometryNumbers) (start : World) (records : List Record)
        (events : List Event) (actor ino : ℕ) (granted : Bool) (r : Running)
        → IsStart g start records → (actor_at (after start events) actor).running ≡ Some r
        → r.next ≡ SnapshotOrCleaner (Compact ino) → IsCompacted ino (after start events)
        (step (after start events) (Go actor granted)).world }
    // An unlink leaves exactly the log pages with entries that the walk by whole pages leaves.
    // What an unlink leaves stays in its blocks, and pages without entries stay.
    ensures unlink { (g : GeometryNumbers) (start : World) (records : List Record)
        (events : List Event) (actor ino : ℕ) (granted : Bool) (r : Running)
        → IsStart g start records → (actor_at (after start events) actor).running ≡ Some r
        → r.next ≡ SnapshotOrCleaner (Unlink ino) → IsUnlinked ino (after start events)
        (step (after start events) (Go actor granted)).world }
{}
