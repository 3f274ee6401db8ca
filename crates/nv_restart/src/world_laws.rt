//! Laws of every world that an image asks for. Each is the contract of a function that does
//! nothing.

ghost use Rattle.std.specs.Prelude.{◌≡◌, List, true};
ghost use Rattle.nv_audit.specs.Faults.{IsFaultless};
ghost use Rattle.nv_audit.specs.Image.{all_notes};
ghost use Rattle.nv_audit.specs.Mounted.{are_apart, are_journals_good};
ghost use Rattle.nv_base.specs.declared.geometry.GeometryNumbers.{GeometryNumbers};
ghost use Rattle.nv_book.specs.declared.record.Record.{Record};
ghost use Rattle.nv_machine.specs.Starts.{IsStart};
ghost use Rattle.nv_machine.specs.Step.{after};
ghost use Rattle.nv_machine.specs.World.{Event, World};
ghost use Rattle.nv_restart.specs.Restarted.{image_of};
ghost use Rattle.nv_restart.specs.Snapshots.{SnapshotsFit};
ghost use Rattle.nv_restart.specs.Stops.{AreHeldLawful, AreInRange, MayStop};

/// From any start on, no inode stands twice in what the open journals have noted.
pub fn journals_note_no_inode_twice()
    // From any start on, no inode stands twice in what the open journals have noted.
    ensures { (g : GeometryNumbers) (start : World) (records : List Record) (events : List Event)
        → IsStart g start records
        → are_apart (all_notes (after start events).shared.book.journals) ≡ true }
{}

/// From a start on whose living snapshots are no more than the device allows, and whose epoch is in
/// its range, so it stays.
pub fn snapshots_stay_few()
    // No more snapshots live than the device allows, and the epoch is in its range: a start that has this keeps it.
    ensures { (g : GeometryNumbers) (start : World) (records : List Record) (events : List Event)
        → IsStart g start records → SnapshotsFit start.shared.book.snaps
        → SnapshotsFit (after start events).shared.book.snaps }
{}

/// From a start on whose generations are in their range, and where a slot of the last one has no
/// page, so it stays.
pub fn generations_stay_in_range()
    // Generations are from 1 to 2^62, and a slot of the last one has no page: a start that has this keeps it.
    ensures { (g : GeometryNumbers) (start : World) (records : List Record) (events : List Event)
        → IsStart g start records → AreInRange start.shared
        → AreInRange (after start events).shared }
{}

/// From a start on where each settled log of which a living snapshot holds a pair is lawful from
/// nothing on, so it stays, also where the inode is gone.
pub fn held_logs_stay_lawful()
    // A settled log of which a living snapshot holds a pair is lawful from nothing on: a start that has this keeps
    // it.
    ensures { (g : GeometryNumbers) (start : World) (records : List Record) (events : List Event)
        → IsStart g start records → AreHeldLawful g.block start.shared
        → AreHeldLawful g.block (after start events).shared }
{}

/// What the open journals have noted is of inodes that have a page, and within their tails.
pub fn journals_note_what_is_there()
    // What open journals have noted is of inodes that have a page, within their tails, and no inode stands twice.
    ensures { (g : GeometryNumbers) (start : World) (records : List Record) (events : List Event)
        → IsStart g start records
        → are_journals_good (image_of (after start events)) ≡ true }
{}

/// From a start on that may stop, each world may stop, and its IMAGE HAS NO FAULT.
pub fn images_of_worlds_have_no_fault()
    // Where a start may stop, so may each later world.
    ensures may { (g : GeometryNumbers) (start : World) (records : List Record)
        (events : List Event) → IsStart g start records → MayStop g.block start.shared
        → MayStop g.block (after start events).shared }
    // The image of such a world has none of the eight faults.
    ensures faultless { (g : GeometryNumbers) (start : World) (records : List Record)
        (events : List Event) → IsStart g start records → MayStop g.block start.shared
        → IsFaultless (image_of (after start events)) }
{}
