//! Laws of histories, in which the machine stops and goes on. Each is the contract of a function
//! that does nothing.

ghost use Rattle.std.specs.Prelude.{◌≡◌, ◌<◌, ℕ, Bool, List, [], ◌∷◌, Some, false, length, true};
ghost use Rattle.std.specs.List.{Contains};
ghost use Rattle.nv_audit.specs.Mounted.{records_anew};
ghost use Rattle.nv_base.specs.Limits.{IsWithinLimits};
ghost use Rattle.nv_base.specs.declared.geometry.GeometryNumbers.{GeometryNumbers};
ghost use Rattle.nv_base.specs.declared.numbers.Handle.{Handle};
ghost use Rattle.nv_book.specs.declared.record.Record.{Record};
ghost use Rattle.nv_entry.specs.Tree.{root};
ghost use Rattle.nv_epoch.specs.SnapList.{ids, pins_of};
ghost use Rattle.nv_machine.specs.Format.{formatted};
ghost use Rattle.nv_machine.specs.Hands.{makes_inode};
ghost use Rattle.nv_machine.specs.Held.{free_by_logs};
ghost use Rattle.nv_machine.specs.Made.{has_handle};
ghost use Rattle.nv_machine.specs.Needed.{free_but_needed};
ghost use Rattle.nv_machine.specs.Numbers.{free_of};
ghost use Rattle.nv_machine.specs.PlainRun.{Commits, plain_change_of, new_plain, plain_of};
ghost use Rattle.nv_machine.specs.PoolScan.{pool_from_scratch};
ghost use Rattle.nv_machine.specs.Reading.{ArePins};
ghost use Rattle.nv_machine.specs.Sequence.{beginning};
ghost use Rattle.nv_machine.specs.Settled.{settled_copies, settled_nodes};
ghost use Rattle.nv_machine.specs.Starts.{AreIdle, IsStart};
ghost use Rattle.nv_machine.specs.Step.{after};
ghost use Rattle.nv_machine.specs.World.{Event, Go, Running, World, actor_at, list_at};
ghost use Rattle.nv_restart.specs.Happenings.{Happening, IsReached, after_all, all_made, plain_after_all, plain_stopped};
ghost use Rattle.nv_restart.specs.Restarted.{image_of, restarted};
ghost use Rattle.nv_restart.specs.Stops.{MayStop};

/// A STOP LEADS TO A START, with the records anew: where the machine stops between any two events,
/// a run may start in the world that goes on, which may stop in its turn.
pub fn stops_lead_to_starts()
    // A stop between any two events leads to a world where a run may start, with the records anew.
    ensures starts { (g : GeometryNumbers) (start : World) (records : List Record)
        (events : List Event) → IsStart g start records → MayStop g.block start.shared
        → IsStart g (restarted (after start events))
        (records_anew (image_of (after start events))) }
    // That world may stop in its turn.
    ensures may { (g : GeometryNumbers) (start : World) (records : List Record)
        (events : List Event) → IsStart g start records → MayStop g.block start.shared
        → MayStop g.block (restarted (after start events)).shared }
{}

/// A STOP LEAVES EVERY SETTLED NODE, with the commit that changed it last. So each call that is
/// past its commit point is wholly there, and no other has left anything.
pub fn stops_leave_nodes()
    // A stop leaves every settled node, with the commit that changed it last.
    ensures { (g : GeometryNumbers) (start : World) (records : List Record) (events : List Event)
        → IsStart g start records → (handle : Handle)
        → settled_nodes (restarted (after start events)).shared handle
        ≡ settled_nodes (after start events).shared handle }
{}

/// A stop leaves the copy of each living snapshot.
pub fn stops_leave_copies()
    // A stop leaves the copy of each living snapshot.
    ensures { (g : GeometryNumbers) (start : World) (records : List Record) (events : List Event)
        → IsStart g start records → MayStop g.block start.shared → (epoch : ℕ)
        → Contains (ids (after start events).shared.book.snaps) epoch → (handle : Handle)
        → settled_copies (restarted (after start events)).shared epoch handle
        ≡ settled_copies (after start events).shared epoch handle }
{}

/// After a stop every actor is idle with an empty hand, no record is deferred, and no snapshot is
/// pinned.
pub fn stops_leave_nothing_under_way()
    // After a stop every actor is idle, with an empty hand.
    ensures idle { (g : GeometryNumbers) (start : World) (records : List Record)
        (events : List Event) → IsStart g start records → MayStop g.block start.shared
        → AreIdle (restarted (after start events)) }
    // No record is deferred, and no snapshot is pinned.
    ensures deferred { (w : World) → (restarted w).shared.book.deferred ≡ [] }
    ensures pins { (g : GeometryNumbers) (start : World) (records : List Record)
        (events : List Event) → IsStart g start records → MayStop g.block start.shared
        → (snapshot : ℕ)
        → ArePins 0 (pins_of (restarted (after start events)).shared.book.snaps snapshot) }
{}

/// After a stop each free list is what one scan of all logs and of the snapshot list leaves, number
/// by number. No hand has a block and nothing is deferred. So a free list has each block of its
/// home range except for log pages and for the pages of pairs that are current or that a living
/// snapshot holds. The pool has the numbers of the slots without an inode that are not of the last
/// generation.
pub fn stops_leave_what_a_scan_leaves()
    // After a stop each free list is what one scan of all logs leaves, number by number.
    ensures scanned { (g : GeometryNumbers) (start : World) (records : List Record)
        (events : List Event) (cpu : ℕ) → IsStart g start records → MayStop g.block start.shared
        → cpu < g.cpus → free_of (list_at (restarted (after start events)).shared cpu)
        ≡ free_by_logs g (restarted (after start events)) cpu }
    // It has all of its home range except log pages and pages that are current or held by a living snapshot.
    ensures needed { (g : GeometryNumbers) (start : World) (records : List Record)
        (events : List Event) (cpu : ℕ) → IsStart g start records → MayStop g.block start.shared
        → cpu < g.cpus → free_of (list_at (restarted (after start events)).shared cpu)
        ≡ free_but_needed g (restarted (after start events)) cpu }
    // The pool of inode numbers is what that scan leaves.
    ensures pool { (g : GeometryNumbers) (start : World) (records : List Record)
        (events : List Event) → IsStart g start records → MayStop g.block start.shared
        → (restarted (after start events)).shared.pool.numbers
        ≡ pool_from_scratch g (restarted (after start events)) }
{}

/// Where some events lead to a world from a start that may stop, so it is of each world to which
/// events and stops lead from there, and of a new one. So each law of runs holds in any history.
pub fn histories_are_runs()
    // Where events lead to a world from a start that may stop, so do they to what events and stops lead to from it.
    ensures later { (g : GeometryNumbers) (happenings : List Happening) (w : World) → IsReached g w
        → IsReached g (after_all w happenings) }
    // A new world is such a start.
    ensures new { (g : GeometryNumbers) → IsWithinLimits g → IsReached g (formatted g) }
{}

/// THE PLAIN WORLD beside a history is that of the world to which it leads: nodes, commit number,
/// epoch and copies. A stop takes all pins off, and changes nothing else there.
pub fn histories_show_the_plain_world()
    // A stop changes nothing in the plain world, except that no snapshot is pinned.
    ensures stopped { (g : GeometryNumbers) (w : World) → IsReached g w
        → plain_of (restarted w) ≡ plain_stopped (plain_of w) }
    // The plain world beside a history is that of the world to which it leads.
    ensures beside { (g : GeometryNumbers) (happenings : List Happening) (w : World) → IsReached g w
        → plain_after_all w happenings (plain_of w) ≡ plain_of (after_all w happenings) }
    // That of a new world has the root alone.
    ensures new { (g : GeometryNumbers) → IsWithinLimits g → plain_of (formatted g) ≡ new_plain }
{}

/// No handle is made twice in a history, also where an inode is erased by a stop: no commit point
/// has made the handle that one makes now, and it is not the root's.
pub fn histories_make_no_handle_twice()
    // No commit point of a history makes a handle that an earlier one made, or the root's.
    ensures { (g : GeometryNumbers) (happenings : List Happening) (w : World) → IsReached g w
        → (actor : ℕ) (granted : Bool) (r : Running)
        → actor < length (after_all w happenings).actors
        → (actor_at (after_all w happenings) actor).running ≡ Some r
        → plain_change_of (after_all w happenings) (Go actor granted) ≡ Commits
        → makes_inode (beginning r.call) ≡ true
        → has_handle (root ∷ all_made w happenings) r.made ≡ false }
{}
