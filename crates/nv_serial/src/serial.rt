//! Laws of calls that are made alone, from any start on and whatever events came before, and of a
//! stop between two of them.

ghost use Rattle.std.specs.Prelude.{◌≡◌, ◌⊎◌, ◌++◌, ℕ, Bool, List, [], ◌∷◌, Some, false};
ghost use Rattle.nv_audit.specs.Mounted.{records_anew};
ghost use Rattle.nv_base.specs.Limits.{IsWithinLimits};
ghost use Rattle.nv_base.specs.Memory.{out_of_memory};
ghost use Rattle.nv_base.specs.declared.fault.Fault.{Fault};
ghost use Rattle.nv_base.specs.declared.geometry.GeometryNumbers.{GeometryNumbers};
ghost use Rattle.nv_book.specs.declared.record.Record.{Record};
ghost use Rattle.nv_calls.specs.declared.answer.Answer.{Answer};
ghost use Rattle.nv_calls.specs.declared.call.Call.{Call};
ghost use Rattle.nv_machine.specs.Alone.{goes};
ghost use Rattle.nv_machine.specs.EndsDecided.{is_snapshot_or_cleaner};
ghost use Rattle.nv_machine.specs.Format.{formatted};
ghost use Rattle.nv_machine.specs.Needed.{IsAtRest};
ghost use Rattle.nv_machine.specs.Starts.{IsStart};
ghost use Rattle.nv_machine.specs.Step.{after, replies, step};
ghost use Rattle.nv_machine.specs.World.{Done, Enter, Event, Go, Refused, Reply, Running, Start, Started, World, actor_at};
ghost use Rattle.nv_restart.specs.Restarted.{image_of, restarted};
ghost use Rattle.nv_restart.specs.Stops.{MayStop};
ghost use Rattle.nv_serial.specs.Histories.{IsServed, StandsAs};
ghost use Rattle.nv_serial.specs.Law.{AreRepliesTo, CallsAreSerial, alone, grows_nothing, serial_after};
ghost use Rattle.nv_serial.specs.OneCall.{serial_call};
ghost use Rattle.nv_serial.specs.Row.{IsPlannedByRow};
ghost use Rattle.nv_serial.specs.Serial.{Serial, new_serial, refused, told};
ghost use Rattle.nv_serial.specs.Stopped.{serial_stopped};

/// A call on files and directories that is made alone has, once it is ready, the plan of the first numbers of the row of
/// free blocks that stood at its start, from its own CPU on, as its data; and as its log pages it has the next ones.
pub fn calls_alone_take_the_row()
    // Once it is ready, a file call made alone has the plan of the first blocks of the row of its start.
    // It has the next blocks of that row as log pages, and the lists have the rest.
    ensures { (g : GeometryNumbers) (start : World) (records : List Record) (before : List Event)
        (actor : ℕ) (c : Call) (grants : List Bool) (r : Running) → IsStart g start records
        → is_snapshot_or_cleaner c ≡ false → (step (after start before) (Start actor c)).reply
        ≡ Started
        → let w = after start (before ++ Start actor c ∷ goes actor grants) in
        (actor_at w actor).running ≡ Some r → r.next ≡ Enter
        → IsPlannedByRow g.block (after start before).shared actor c w.shared.lists
        (actor_at w actor).hand.pages r.made r.plan }
{}

/// A call on files and directories that is made alone, where no call runs before it, is answered as the world with numbers
/// says, and leaves that world as it says: with the lowest free inode number, the first blocks of the row as its data and
/// the next ones as its log pages, its entries on these pages, what it kills on record, and erased what is over. One that
/// is refused leaves that world as it was. It is refused as that world says, or for want of memory where it grows anything.
/// So want of an inode comes exactly where no number is free, want of blocks where the row is shorter than data and log
/// pages together, and the commit limit behind both. Then no call runs again.
pub fn file_calls_alone_are_serial()
    // The last step of a file call made alone answers and leaves what the world with numbers says.
    ensures answered { (g : GeometryNumbers) (start : World) (records : List Record)
        (before : List Event) (actor : ℕ) (c : Call) (grants : List Bool) (granted : Bool)
        (r : Running) (found : Answer) → IsStart g start records
        → IsAtRest (after start before) → is_snapshot_or_cleaner c ≡ false
        → (step (after start before) (Start actor c)).reply ≡ Started
        → let ran = before ++ Start actor c ∷ goes actor grants in
        (actor_at (after start ran) actor).running ≡ Some r
        → (step (after start ran) (Go actor granted)).reply ≡ Done found
        → (serial_call (serial_after g start records before) actor c
        ≡ told found (serial_after g start records (ran ++ Go actor granted ∷ [])))
        × IsAtRest (after start (ran ++ Go actor granted ∷ [])) }
    // One that refuses it does so as that world says, or for want of memory, and nothing has changed.
    ensures refused { (g : GeometryNumbers) (start : World) (records : List Record)
        (before : List Event) (actor : ℕ) (c : Call) (grants : List Bool) (granted : Bool)
        (r : Running) (fault : Fault) → IsStart g start records
        → IsAtRest (after start before) → is_snapshot_or_cleaner c ≡ false
        → (step (after start before) (Start actor c)).reply ≡ Started
        → let ran = before ++ Start actor c ∷ goes actor grants in
        (actor_at (after start ran) actor).running ≡ Some r
        → (step (after start ran) (Go actor granted)).reply ≡ Refused fault
        → ((serial_call (serial_after g start records before) actor c
        ≡ refused fault (serial_after g start records before)) ⊎
        ((fault ≡ out_of_memory) × (grows_nothing c ≡ false)))
        × (serial_after g start records (ran ++ Go actor granted ∷ [])
        ≡ serial_after g start records before)
        × IsAtRest (after start (ran ++ Go actor granted ∷ [])) }
{}

/// THE LAW of calls that are made one at a time: a call that is made alone, where no call runs before it, is replied what
/// the world with numbers says of the one before it, and leaves that world as it says, from any start on and whatever
/// events came before. So which numbers of blocks and inodes it takes, and whether it is refused for want of them, is told
/// by that world alone. A call that grows something may be refused memory instead, and then nothing has changed: a stat, a
/// lookup, a making and a drop never are. An actor that is not there is refused as such. Then no call runs again.
pub fn calls_are_serial()
    // A call made alone is replied what the world with numbers says.
    // Such a call begins where no call runs, and no other actor makes a step up to its last.
    // It leaves the plain world and the records as that world has them.
    // It leaves each inode slot the generation and the log pages that it has there.
    // A new inode has the lowest free number, with the generation of its inode slot.
    // Data are the first blocks of the actor's row, and log pages the next ones.
    // A row has the free blocks of the actor's CPU, lowest first, and then those of the next ones.
    // Log pages go to inodes in rising number, and entries to the last that has any and room.
    // What entries kill and a living snapshot holds goes to the end of the records, inode by inode.
    // An inode that is gone and keeps nothing leaves its inode slot empty, of the next generation.
    // Want of an inode number comes exactly where none is free, behind plain refusals.
    // Want of blocks comes exactly where the row is shorter than data and log pages together, behind that.
    // The commit limit comes last.
    // A making, a drop, a show and a drain answer and leave what a few lines say.
    // So are the cleaners and what they leave.
    // A call may be refused memory in the place of all this, and then nothing has changed.
    // A stat, a lookup, a making and a drop are never refused memory.
    // An actor that is not there is refused `NoActor`, and nothing changes.
    // After a call made alone no call runs.
    ensures { CallsAreSerial }
{}

/// A STOP where no call runs leaves the world with numbers as that world says, with the records
/// anew, and then no call runs. So what calls are answered from there on is told by that world
/// alone. Its plain world stays. Each log keeps its entries on their pages, and loses the pages
/// without one. An inode that is gone and of which no living snapshot holds a pair leaves its slot
/// empty, in the next generation. A record stands for each pair that is not current and that a
/// living snapshot holds, by rising slot and in the order of its log.
pub fn stops_are_serial()
    // A stop where no call runs leaves the world with numbers as that world says, with the records anew.
    ensures left { (g : GeometryNumbers) (start : World) (records : List Record)
        (events : List Event) → IsStart g start records → MayStop g.block start.shared
        → IsAtRest (after start events)
        → serial_after g (restarted (after start events))
        (records_anew (image_of (after start events))) []
        ≡ serial_stopped (serial_after g start records events) }
    // After a stop no call runs.
    ensures rest { (g : GeometryNumbers) (start : World) (records : List Record)
        (events : List Event) → IsStart g start records → MayStop g.block start.shared
        → IsAtRest (restarted (after start events)) }
{}

/// IN A HISTORY of calls that are made one at a time and of stops between them, each world of the
/// machine stands as a world with numbers: a new world as the new one, and the world after a call
/// or a stop as what that call or that stop leaves there.
pub fn histories_are_serial()
    // A new world stands as the new world with numbers.
    ensures new { (g : GeometryNumbers) → IsWithinLimits g
        → StandsAs g (formatted g) (new_serial g) }
    // The world after a call made alone stands as what that call leaves of that world with numbers.
    ensures called { (g : GeometryNumbers) (w : World) (s : Serial) (actor : ℕ) (c : Call)
        (grants : List Bool) (last : Reply) → StandsAs g w s
        → AreRepliesTo grants (replies w (alone actor c grants)) last
        → IsServed g w s actor c grants last }
    // The world after a stop stands as what a stop leaves of it.
    ensures stopped { (g : GeometryNumbers) (w : World) (s : Serial) → StandsAs g w s
        → StandsAs g (restarted w) (serial_stopped s) }
{}
