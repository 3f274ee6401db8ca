//! Laws of the machine of steps on which steps a call makes, and which slots it locks.

ghost use Rattle.std.specs.Prelude.{◌≡◌, ◌&&◌, ℕ, List, Some, nat_lt, true};
ghost use Rattle.std.specs.List.{AllByRecursion};
ghost use Rattle.nv_alloc.specs.Numbers.{has};
ghost use Rattle.nv_base.specs.declared.geometry.GeometryNumbers.{GeometryNumbers};
ghost use Rattle.nv_book.specs.declared.record.Record.{Record};
ghost use Rattle.nv_machine.specs.NeededSlots.{is_locking, needed_inos};
ghost use Rattle.nv_machine.specs.Starts.{IsStart};
ghost use Rattle.nv_machine.specs.Step.{after};
ghost use Rattle.nv_machine.specs.StepRows.{IsRow, rows_of_changes, rows_of_cleaners, rows_of_readers, rows_on_snapshots};
ghost use Rattle.nv_machine.specs.World.{Event, Running, World, actor_at};

/// A call locks exactly the slots that it needs, whatever events came from any start on: those of the handles that it
/// names, of those that its looks have found and of its new inode, without any that are out of range. The list rises
/// ([`crate::laws::who_holds_what`]), so each slot is locked once.
pub fn calls_lock_what_they_need()
    // A call locks exactly the inode slots of its handles, its found handles and its new inode.
    ensures { (g : GeometryNumbers) (start : World) (records : List Record) (events : List Event)
        (actor ino : ℕ) (r : Running) → IsStart g start records
        → (actor_at (after start events) actor).running ≡ Some r → is_locking r.next ≡ true
        → has r.slots ino ≡ (nat_lt ino g.inodes
        && has (needed_inos (actor_at (after start events) actor).hand r) ino) }
{}

/// Worked rows: the steps that each call makes, in their order, each with its slot, its CPU or its directory. A rename of
/// two directories has a look for each, and one within a directory has one look. Each slot that a call needs has one
/// lock, and no other slot has any. The journal of two slots or more is that of the actor's CPU.
pub fn calls_make_these_steps()
    // Worked rows: the steps of each of the nineteen calls, in order.
    // A rename of two directories has a look for each, and one within a directory has one.
    ensures changes { AllByRecursion IsRow rows_of_changes }
    ensures readers { AllByRecursion IsRow rows_of_readers }
    ensures snapshots { AllByRecursion IsRow rows_on_snapshots }
    ensures cleaners { AllByRecursion IsRow rows_of_cleaners }
{}
