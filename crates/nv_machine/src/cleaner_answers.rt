//! Laws of cleaners: what they are answered and refused for, how soon they end, and what they leave.
//! Each is the contract of a function that does nothing.

ghost use Rattle.std.specs.Prelude.{◌≡◌, ◌≢◌, ◌+◌, ◌*◌, ◌≤◌, ◌++◌, ◌∷◌, [], ℕ, Bool, List, Some, true};
ghost use Rattle.nv_base.specs.declared.fault.Fault.{Fault};
ghost use Rattle.nv_base.specs.declared.geometry.GeometryNumbers.{GeometryNumbers};
ghost use Rattle.nv_book.specs.declared.record.Record.{Record};
ghost use Rattle.nv_calls.specs.declared.answer.Answer.{Answer};
ghost use Rattle.nv_machine.specs.CleanerAnswers.{IsCleanedBy, IsRefusedInOrder, cleaner, work_done};
ghost use Rattle.nv_machine.specs.OwnSteps.{own_steps};
ghost use Rattle.nv_machine.specs.PlainRun.{Plain, plain_change_of, keeps_nodes, plain_step};
ghost use Rattle.nv_machine.specs.Recorded.{records_in};
ghost use Rattle.nv_machine.specs.Starts.{IsStart};
ghost use Rattle.nv_machine.specs.Step.{after, step};
ghost use Rattle.nv_machine.specs.World.{Done, Go, Event, Manner, Refused, Running, World, actor_at, cell_at};

/// A cleaner is answered what its steps did, whatever events came from any start on. It planned
/// once, and then made one clean step, or none where it goes entry by entry and the planning found that no
/// entry goes. The entries and the pages that it tells are those that the log of its inode lost by its
/// steps, 0 and 0 without a clean step. And it tells whether it went entry by entry, as its clean step
/// did: fast never does, thorough always, and auto where less than half of the entries stay by its planning.
pub fn cleaners_tell_what_went()
    // A cleaner is told how many entries and log pages the log of its inode lost by its steps.
    // A cleaner that is answered planned once, and the planning passed it.
    // Such a cleaner made one clean step, unless it goes entry by entry and no entry goes.
    // The clean step went entry by entry, or by whole log pages, as the answer tells.
    // A cleaner without a clean step is told 0 entries and 0 log pages.
    // `fast` is told that it was not thorough, and `thorough` that it was.
    // `auto` is told that it was thorough exactly where less than half of the entries stay.
    ensures { (g : GeometryNumbers) (start : World) (records : List Record) (events : List Event)
        (actor ino : ℕ) (granted : Bool) (r : Running) (manner : Manner) (told : Answer)
        → IsStart g start records → (actor_at (after start events) actor).running ≡ Some r
        → r.call ≡ cleaner manner ino
        → (step (after start events) (Go actor granted)).reply ≡ Done told
        → IsCleanedBy manner ino
        (work_done ino (own_steps actor start (events ++ Go actor granted ∷ []) [])) told }
{}

/// A cleaner is refused at its planning, first where its number has no slot or the slot's log no entry, and
/// then where the memory of the walk is not granted. Behind a planning that it passed it is refused only where
/// so many lists were asked for pages as there are: each of them once, and they are too few
/// ([`crate::plain_laws::short_takings_have_asked_every_list`]). So whatever events came, and a refused
/// cleaner has made no clean step, and the log of its inode has lost nothing.
pub fn cleaners_are_refused_in_order()
    // A cleaner is refused by its planning where its number has no slot, or the slot's log no entry.
    // Want of an inode comes before want of the walk's memory.
    // A cleaner is refused for want of blocks only behind a planning that it passed.
    // For want of blocks each list was asked once, and at a refusal of the planning none was.
    // A refused cleaner has made no clean step.
    // The log of a refused cleaner has lost no entry and no log page.
    ensures { (g : GeometryNumbers) (start : World) (records : List Record) (events : List Event)
        (actor ino : ℕ) (granted : Bool) (r : Running) (manner : Manner) (fault : Fault)
        → IsStart g start records → (actor_at (after start events) actor).running ≡ Some r
        → r.call ≡ cleaner manner ino
        → (step (after start events) (Go actor granted)).reply ≡ Refused fault
        → IsRefusedInOrder ino g.cpus
        (work_done ino (own_steps actor start (events ++ Go actor granted ∷ []) [])) fault }
{}

/// A cleaner ends soon: whatever other actors do, it makes at most four steps and two for each list. What
/// waits is no step that it makes.
pub fn cleaners_end_soon()
    // A cleaner makes at most four steps and two for each list, whatever the others do.
    ensures { (g : GeometryNumbers) (start : World) (records : List Record) (events : List Event)
        (actor ino : ℕ) (granted : Bool) (r : Running) (manner : Manner)
        → IsStart g start records → (actor_at (after start events) actor).running ≡ Some r
        → r.call ≡ cleaner manner ino
        → (work_done ino (own_steps actor start (events ++ Go actor granted ∷ []) [])).made
        ≤ 4 + 2 * g.cpus }
{}

/// No step of a cleaner is a commit point, whatever events came. None changes the plain world, the list of
/// records, the book, or the cell of another inode. So nodes and copies stay, and deferred records stay
/// deferred.
pub fn cleaners_change_one_log()
    // No step of a cleaner is a commit point.
    ensures commits { (g : GeometryNumbers) (start : World) (records : List Record)
        (events : List Event) (actor ino : ℕ) (granted : Bool) (r : Running) (manner : Manner)
        → IsStart g start records → (actor_at (after start events) actor).running ≡ Some r
        → r.call ≡ cleaner manner ino
        → keeps_nodes (plain_change_of (after start events) (Go actor granted)) ≡ true }
    // A step of a cleaner does nothing in the plain world.
    ensures plain { (g : GeometryNumbers) (start : World) (records : List Record) (events : List Event)
        (actor ino : ℕ) (granted : Bool) (r : Running) (manner : Manner) (p : Plain)
        → IsStart g start records → (actor_at (after start events) actor).running ≡ Some r
        → r.call ≡ cleaner manner ino
        → plain_step (after start events) (Go actor granted) p ≡ p }
    // A step of a cleaner leaves the list of records.
    ensures records { (g : GeometryNumbers) (start : World) (records : List Record)
        (events : List Event) (actor ino : ℕ) (granted : Bool) (r : Running) (manner : Manner)
        (list : List Record)
        → IsStart g start records → (actor_at (after start events) actor).running ≡ Some r
        → r.call ≡ cleaner manner ino
        → records_in (after start events) (Go actor granted) list ≡ list }
    // A step of a cleaner leaves the book: the deferred records, snapshots, and the commit number.
    ensures book { (g : GeometryNumbers) (start : World) (records : List Record) (events : List Event)
        (actor ino : ℕ) (granted : Bool) (r : Running) (manner : Manner)
        → IsStart g start records → (actor_at (after start events) actor).running ≡ Some r
        → r.call ≡ cleaner manner ino
        → (step (after start events) (Go actor granted)).world.shared.book
        ≡ (after start events).shared.book }
    // A step of a cleaner leaves the cell of each other inode slot.
    ensures others { (g : GeometryNumbers) (start : World) (records : List Record)
        (events : List Event) (actor ino other : ℕ) (granted : Bool) (r : Running) (manner : Manner)
        → IsStart g start records → (actor_at (after start events) actor).running ≡ Some r
        → r.call ≡ cleaner manner ino → other ≢ ino
        → cell_at (step (after start events) (Go actor granted)).world.shared other
        ≡ cell_at (after start events).shared other }
{}
