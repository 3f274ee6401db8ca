//! Laws of the machine of steps on the book: what its history tells, and whose journal is open.

ghost use Rattle.std.specs.Prelude.{◌≡◌, ◌%◌, ℕ, List, [], Some, false, true};
ghost use Rattle.nv_base.specs.declared.geometry.GeometryNumbers.{GeometryNumbers};
ghost use Rattle.nv_book.specs.declared.record.Record.{Record};
ghost use Rattle.nv_machine.specs.Happened.{IsOpenAt, all_noted, happened, is_journaled, journal_at};
ghost use Rattle.nv_machine.specs.Reads.{written_slots};
ghost use Rattle.nv_machine.specs.Starts.{IsStart};
ghost use Rattle.nv_machine.specs.Step.{after};
ghost use Rattle.nv_machine.specs.World.{Event, Running, World, actor_at};

/// The history tells what happened, whatever events came from any start on: each commit that was entered, with the actor
/// whose call it is, the next number and the epoch of then; each making of a snapshot, and each drop; all in their order,
/// of which the latest 256 are told one by one.
pub fn history_is_what_happened()
    // The history has each commit that was entered, with its actor, its number and its epoch.
    // It has each making of a snapshot and each drop, in their order.
    ensures { (g : GeometryNumbers) (start : World) (records : List Record) (events : List Event)
        → IsStart g start records → (after start events).shared.book.history
        ≡ all_noted start.shared.book.history (happened start events) }
{}

/// The open journal is that of the CPU of the actor whose call has opened it: it has noted exactly the slots that the call
/// writes, and no other journal has noted anything. While no call has opened its journal none has.
pub fn open_journals_are_the_actors()
    // The open journal is that of the CPU of the actor whose call has opened it.
    // It has noted exactly the inode slots that the call writes, and no other journal notes any.
    ensures open { (g : GeometryNumbers) (start : World) (records : List Record)
        (events : List Event) (actor : ℕ) (r : Running) → IsStart g start records
        → (actor_at (after start events) actor).running ≡ Some r
        → is_journaled r.next (written_slots r) ≡ true
        → IsOpenAt (after start events).shared (actor % g.cpus) (written_slots r) }
    // While no call has opened its journal none has noted anything.
    ensures closed { (g : GeometryNumbers) (start : World) (records : List Record)
        (events : List Event) (cpu : ℕ) → IsStart g start records
        → ((actor : ℕ) (r : Running) → (actor_at (after start events) actor).running ≡ Some r
        → is_journaled r.next (written_slots r) ≡ false)
        → journal_at (after start events).shared cpu ≡ [] }
{}
