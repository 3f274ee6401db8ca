//! A law of the machine of steps on inodes that are gone: nothing stays of one, once nothing is to be kept of it.

ghost use Rattle.std.specs.Prelude.{◌≡◌, ℕ, Bool, List, None, Some, false};
ghost use Rattle.nv_base.specs.declared.geometry.GeometryNumbers.{GeometryNumbers};
ghost use Rattle.nv_book.specs.declared.record.Record.{Record};
ghost use Rattle.nv_machine.specs.Erasing.{IsErasedWhole, IsOnItsWay, IsOnItsWayOrBack, IsOver, pending_but};
ghost use Rattle.nv_machine.specs.Held.{pending_in};
ghost use Rattle.nv_cell.specs.Readers.{is_withheld};
ghost use Rattle.nv_machine.specs.Reads.{slot_at, written_slots};
ghost use Rattle.nv_machine.specs.Starts.{IsStart};
ghost use Rattle.nv_machine.specs.Step.{after, step};
ghost use Rattle.nv_machine.specs.World.{Draining, Event, Go, Release, Retire, Running, SnapshotOrCleaner, World, actor_at, cell_at};

/// Whatever events came from any start on, an inode that is gone and of which nothing is kept is erased in the
/// step that retires what was killed of it, or in the one that releases its last record: its chain and the blocks
/// of its parts go to the hand of the call, its slot is empty and of the next generation, and its number is in the
/// hand, unless that generation is the last. From there on the number stays in the hand, whatever others do, up to
/// the step that ends the call, or the drain's record, which puts it into the pool. So no slot has such an inode
/// while no commit is under way.
/// A retire that loses the chain, a block or the number is no step of the machine, by a worked unlink.
/// A retire that keeps the generation or erases nothing is no step of the machine, by that unlink.
pub fn gone_inodes_are_erased()
    // A gone inode of which nothing is kept is erased by the retire of what was killed of it.
    // Nothing is kept where no pair of its settled log is current, held by a living snapshot or deferred.
    // An erased inode's slot is empty and of the next generation.
    // The hand of the call has each log page of the erased inode and the block of each of its parts.
    // The hand has the erased inode's number, unless the next generation is the last.
    ensures retire { (g : GeometryNumbers) (start : World) (records : List Record)
        (events : List Event) (actor place : ℕ) (granted : Bool) (r : Running)
        → IsStart g start records → (actor_at (after start events) actor).running ≡ Some r
        → r.next ≡ Retire place → IsOver (pending_in (after start events))
        (after start events).shared (slot_at (written_slots r) place) → IsErasedWhole actor
        (slot_at (written_slots r) place) (after start events)
        (step (after start events) (Go actor granted)).world }
    // A gone inode is erased by the release of its last record.
    ensures release { (g : GeometryNumbers) (start : World) (records : List Record)
        (events : List Event) (actor : ℕ) (draining : Draining) (picked : Record) (granted : Bool)
        (r : Running) → IsStart g start records
        → (actor_at (after start events) actor).running ≡ Some r
        → r.next ≡ SnapshotOrCleaner (Release draining picked)
        → IsOver (pending_but actor (after start events)) (after start events).shared picked.ino
        → IsErasedWhole actor picked.ino (after start events)
        (step (after start events) (Go actor granted)).world }
    // The number of an erased inode stays in the hand of its call, whatever any actor does.
    // Each number of a hand whose call retires or has only its last steps left goes back so.
    ensures hand { (g : GeometryNumbers) (start : World) (records : List Record)
        (events : List Event) (actor place : ℕ) (granted : Bool) (r : Running)
        → IsStart g start records → (actor_at (after start events) actor).running ≡ Some r
        → r.next ≡ Retire place → IsOver (pending_in (after start events))
        (after start events).shared (slot_at (written_slots r) place)
        → is_withheld (cell_at (step (after start events) (Go actor granted)).world.shared
        (slot_at (written_slots r) place)) ≡ false → IsOnItsWay actor
        (slot_at (written_slots r) place) (step (after start events) (Go actor granted)).world }
    // The step that lets a drain pick its next record puts that number into the pool.
    ensures released { (g : GeometryNumbers) (start : World) (records : List Record)
        (events : List Event) (actor : ℕ) (draining : Draining) (picked : Record) (granted : Bool)
        (r : Running) → IsStart g start records
        → (actor_at (after start events) actor).running ≡ Some r
        → r.next ≡ SnapshotOrCleaner (Release draining picked)
        → IsOver (pending_but actor (after start events)) (after start events).shared picked.ino
        → is_withheld
        (cell_at (step (after start events) (Go actor granted)).world.shared picked.ino) ≡ false
        → IsOnItsWay actor picked.ino (step (after start events) (Go actor granted)).world }
    // The step that ends the call puts the number into the pool.
    ensures pool { (g : GeometryNumbers) (start : World) (records : List Record)
        (events : List Event) (actor ino : ℕ) (e : Event) → IsStart g start records
        → IsOnItsWay actor ino (after start events)
        → IsOnItsWayOrBack actor ino (step (after start events) e).world }
    // No inode slot has a gone inode of which nothing is kept while the commit lock is free.
    ensures none { (g : GeometryNumbers) (start : World) (records : List Record)
        (events : List Event) (ino : ℕ) → IsStart g start records
        → (after start events).shared.holder ≡ None
        → IsOver (pending_in (after start events)) (after start events).shared ino → ⊥ }
{}
