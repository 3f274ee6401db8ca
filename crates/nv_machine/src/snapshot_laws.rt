//! Laws of the machine of steps on snapshots: which records there are, what each living snapshot holds, that it reads
//! as the tree that stood when it was made, and what its calls are answered and refused. Each is the contract of a
//! function that does nothing.

ghost use Rattle.std.specs.Prelude.{◌≡◌, ◌⊎◌, ◌&&◌, ◌++◌, ◌<◌, ◌≤◌, ℕ, Bool, true, List, [], ◌∷◌, Contains, IsSome, None, Ok, Some, length, not, slice_get};
ghost use Rattle.std.specs.List.{AllByRecursion};
ghost use Rattle.nv_base.specs.declared.fault.Fault.{Fault};
ghost use Rattle.nv_base.specs.Memory.{out_of_memory};
ghost use Rattle.nv_base.specs.declared.geometry.GeometryNumbers.{GeometryNumbers};
ghost use Rattle.nv_book.specs.Listed.{IsRecordList, unheld};
ghost use Rattle.nv_book.specs.declared.record.Record.{Record};
ghost use Rattle.nv_calls.specs.declared.answer.Answer.{Answer};
ghost use Rattle.nv_calls.specs.declared.answer.Answer.TheVariants as answers;
ghost use Rattle.nv_calls.specs.declared.call.Call.TheVariants as call;
ghost use Rattle.nv_calls.specs.declared.snapshot_or_cleaner_call.SnapshotOrCleanerCall.TheVariants as on;
ghost use Rattle.nv_cell.specs.Cell.{log_of};
ghost use Rattle.nv_entry.specs.Held.{holds, is_current};
ghost use Rattle.nv_entry.specs.Log.{pairs};
ghost use Rattle.nv_entry.specs.Tree.{FormTree};
ghost use Rattle.nv_entry.specs.declared.held.Pair.{Pair};
ghost use Rattle.nv_entry.specs.declared.tree.TreeNode.{TreeNode};
ghost use Rattle.nv_epoch.specs.SnapList.{ids, pins_of};
ghost use Rattle.nv_machine.specs.DrainNumbers.{FindsNothing, drain_number};
ghost use Rattle.nv_machine.specs.Bound.{AreNoStarts};
ghost use Rattle.nv_machine.specs.Needed.{AreNoDrops, IsAtRest, drained, free_but_needed};
ghost use Rattle.nv_machine.specs.Numbers.{free_of};
ghost use Rattle.nv_machine.specs.PlainRun.{plain_after, plain_of};
ghost use Rattle.nv_machine.specs.Reading.{AreCopied, ArePins, GoesBy, copied_tree, is_tested, plain_tests, releases, shows_of, tests_on};
ghost use Rattle.nv_machine.specs.Recorded.{AreRecordedOnce, IsOfPair, is_killed_pair, is_recorded_for, recorded_in, records_after};
ghost use Rattle.nv_machine.specs.Settled.{settled_copies, snapshot_tree};
ghost use Rattle.nv_machine.specs.SnapshotOrCleaner.{snapshot_or_cleaner_turn};
ghost use Rattle.nv_machine.specs.Starts.{IsStart};
ghost use Rattle.nv_machine.specs.Step.{after, step};
ghost use Rattle.nv_machine.specs.World.{Done, Draining, Drop, Ends, Event, Go, HandState, Make, Pick, Refused, Refuses, Running, Shared, SnapshotOrCleanerStep, SnapshotOrCleaner, Start, Started, Unpin, Waiting, World, actor_at, cell_at, list_at};

/// The records are one list, whatever events came from any start on: a retire step puts the killed parts of its inode
/// to its end, in order, that a living snapshot holds; a drop moves there, in order, the records that its snapshot was
/// the youngest to hold; and a pick takes out the first that no living snapshot holds. The manifests and the deferred
/// list are that list, each record with its youngest living holder, or deferred where it has none. A part is marked
/// kept exactly where it has one record, in a manifest, deferred, or picked by a drain that has not yet released it;
/// none has two; and each record is of a pair of its inode's log that has died, and each living snapshot holds the record
/// exactly where it holds the pair.
pub fn records_are_filed()
    // A retire puts into one list of records what a living snapshot holds of the killed parts.
    // A retire puts those records to the end of the list, in order.
    // A drop moves to the end the records that its snapshot was the youngest to hold.
    // A drop defers those alone that no living snapshot holds any more.
    // A pick takes the first record out that no living snapshot holds.
    // The manifests and the deferred list are that list of records.
    ensures list { (g : GeometryNumbers) (start : World) (records : List Record) (events : List Event)
        → IsStart g start records → IsRecordList (ids (after start events).shared.book.snaps)
        (after start events).shared.book.manifests (after start events).shared.book.deferred
        (records_after start events records) }
    // A drop defers all records that no living snapshot holds any more.
    ensures deferred { (g : GeometryNumbers) (start : World) (records : List Record) (events : List Event)
        → IsStart g start records → (after start events).shared.book.deferred
        ≡ unheld (ids (after start events).shared.book.snaps) (records_after start events records) }
    // A part is marked kept exactly where it has one record.
    // No part has two records.
    ensures once { (g : GeometryNumbers) (start : World) (records : List Record) (events : List Event)
        → IsStart g start records → AreRecordedOnce (after start events) }
    // Each record is of a pair of its inode's log, of that birth, which has died.
    // Each record has the same living holders as its pair.
    ensures pairs { (g : GeometryNumbers) (start : World) (records : List Record) (events : List Event)
        → IsStart g start records
        → AllByRecursion (IsOfPair (after start events)) (recorded_in (after start events)) }
{}

/// For each living snapshot the pairs that are recorded with it as a holder are those that it holds by the logs, less
/// the current ones and those that are killed and not yet retired.
pub fn snapshots_hold_what_logs_tell()
    // The pairs recorded with a living snapshot as a holder are those that it holds by the logs.
    // No pair is recorded with a snapshot from before its birth.
    // Neither current pairs are recorded, nor those killed and not yet retired.
    ensures { (g : GeometryNumbers) (start : World) (records : List Record) (events : List Event)
        (snapshot ino n : ℕ) (pair : Pair) → IsStart g start records
        → Contains (ids (after start events).shared.book.snaps) snapshot
        → slice_get (pairs (cell_at (after start events).shared ino).block
        (log_of (cell_at (after start events).shared ino))) n ≡ Some pair
        → is_recorded_for snapshot (after start events) ino pair ≡ (holds snapshot pair
        && (not (is_current pair) && not (is_killed_pair (after start events) ino pair))) }
{}

/// Each living snapshot reads as the nodes that stood when it was made, whatever events came since: at its epoch the
/// settled logs give the plain world's copy, which no event changes. So they form a tree, and it is the tree of that
/// copy. A show that is answered is told that tree, and its snapshot lives up to its last step; one whose memory was
/// refused is told so by that step.
pub fn snapshots_read_as_they_were()
    // Each living snapshot reads as the nodes that stood at its making, whatever events came since.
    // At a living snapshot's epoch the settled logs give the plain world's copy.
    // A living snapshot has the number and the pins of the plain world's copy.
    ensures copies { (g : GeometryNumbers) (start : World) (records : List Record) (events : List Event)
        → IsStart g start records → AreCopied (after start events).shared
        (after start events).shared.book.snaps.living
        (plain_after start events (plain_of start)).copies }
    // The epoch of a world is the plain world's.
    ensures epoch { (g : GeometryNumbers) (start : World) (records : List Record) (events : List Event)
        → IsStart g start records → (after start events).shared.book.snaps.epoch
        ≡ (plain_after start events (plain_of start)).epoch }
    // The directories of a living snapshot form a tree.
    ensures tree { (g : GeometryNumbers) (start : World) (records : List Record)
        (events : List Event) (snapshot : ℕ) → IsStart g start records
        → Contains (ids (after start events).shared.book.snaps) snapshot → FormTree
        (settled_copies (after start events).shared snapshot)
        (length (after start events).shared.cells) }
    // The tree of a living snapshot is that of the plain world's copy.
    ensures reads { (g : GeometryNumbers) (start : World) (records : List Record)
        (events : List Event) (snapshot : ℕ) → IsStart g start records
        → Contains (ids (after start events).shared.book.snaps) snapshot
        → copied_tree (length (after start events).shared.cells)
        (plain_after start events (plain_of start)).copies snapshot
        ≡ Some (snapshot_tree (after start events) snapshot) }
    // A show whose memory was refused is told so by its last step.
    ensures refused { (w : World) (actor snapshot : ℕ)
        (granted : Bool) (r : Running) (seen : List TreeNode) (fault : Fault)
        → (actor_at w actor).running ≡ Some r
        → r.next ≡ SnapshotOrCleaner (Unpin snapshot seen) → r.ending ≡ Refuses fault
        → ((step w (Go actor granted)).reply ≡ Waiting)
        ⊎ ((step w (Go actor granted)).reply ≡ Refused fault) }
    // A show that is answered is told the tree of its snapshot.
    // The snapshot of a show that is answered lives up to the show's last step.
    ensures show { (g : GeometryNumbers) (start : World) (records : List Record)
        (events : List Event) (actor snapshot : ℕ) (granted : Bool) (r : Running)
        (seen : List TreeNode) (told : Answer) → IsStart g start records
        → (actor_at (after start events) actor).running ≡ Some r
        → r.next ≡ SnapshotOrCleaner (Unpin snapshot seen)
        → (step (after start events) (Go actor granted)).reply ≡ Done told
        → (told ≡ answers.Tree (snapshot_tree (after start events) snapshot))
        × Contains (ids (after start events).shared.book.snaps) snapshot }
{}

/// A snapshot has a pin for each show of it that is between its first step and its last; so each snapshot that
/// such a show is of lives.
pub fn pins_are_of_shows()
    // A snapshot has a pin for each show of it between its first step and its last.
    // A refused show leaves no pin.
    // A snapshot that does not live has no show.
    ensures { (g : GeometryNumbers) (start : World) (records : List Record) (events : List Event)
        (snapshot : ℕ) → IsStart g start records → ArePins
        (shows_of snapshot (after start events))
        (pins_of (after start events).shared.book.snaps snapshot) }
{}

/// What a making, a drop and a show are refused for is what the plain world refuses them for at that step, with its
/// epoch and its copies: such a step waits, or it is refused for that fault, and for none where there is none.
pub fn snapshot_refusals_are_told()
    // A making, a drop and a show are refused for just what the plain world refuses them for.
    // A drop of a snapshot that does not live is refused as by the plain world.
    ensures tests { (g : GeometryNumbers) (start : World) (records : List Record)
        (events : List Event) (kind : SnapshotOrCleanerStep) → IsStart g start records
        → tests_on kind (after start events).shared.book.snaps
        ≡ plain_tests g.snaps kind (plain_after start events (plain_of start)) }
    // A making, a drop or a show waits, or it replies that fault, and none where there is none.
    ensures replies { (g : GeometryNumbers) (start : World) (records : List Record)
        (events : List Event) (actor : ℕ) (granted : Bool) (r : Running)
        (kind : SnapshotOrCleanerStep)
        → IsStart g start records → (actor_at (after start events) actor).running ≡ Some r
        → r.next ≡ SnapshotOrCleaner kind → is_tested kind ≡ true
        → ((step (after start events) (Go actor granted)).reply ≡ Waiting) ⊎ GoesBy
        (plain_tests g.snaps kind (plain_after start events (plain_of start)))
        (step (after start events) (Go actor granted)).reply }
{}

/// A making that is answered is told the epoch that it ends, which its snapshot is named by; a drop
/// is told nothing more.
pub fn makings_and_drops_are_answered()
    // A making that is answered is told the epoch that it ends.
    // The snapshot is named by that epoch; a drop is told nothing more.
    ensures made { (g : GeometryNumbers) (start : World) (records : List Record)
        (events : List Event) (actor : ℕ) (granted : Bool) (r : Running) (told : Answer)
        → IsStart g start records → (actor_at (after start events) actor).running ≡ Some r
        → r.next ≡ SnapshotOrCleaner Make
        → (step (after start events) (Go actor granted)).reply ≡ Done told
        → told ≡ answers.Snapshot (plain_after start events (plain_of start)).epoch }
    ensures dropped { (g : GeometryNumbers) (start : World) (records : List Record)
        (events : List Event) (actor snapshot : ℕ) (granted : Bool) (r : Running) (told : Answer)
        → IsStart g start records → (actor_at (after start events) actor).running ≡ Some r
        → r.next ≡ SnapshotOrCleaner (Drop snapshot)
        → (step (after start events) (Go actor granted)).reply ≡ Done told
        → told ≡ answers.Nothing }
{}

/// A drain is answered how many records its steps have released; as long as it runs it is refused only for want of
/// memory before the first. And a pick finds nothing only where nothing is deferred.
pub fn drains_count_their_releases()
    // A drain is answered how many records its steps have released.
    // A drain's answer does not count its picks.
    // A drain's answer has every release.
    ensures answer { (g : GeometryNumbers) (start : World) (records : List Record)
        (before events : List Event) (actor count told : ℕ) (granted : Bool)
        → IsStart g start records
        → (step (after start before) (Start actor (call.SnapshotOrCleaner (on.Drain count)))).reply
        ≡ Started → AreNoStarts actor events
        → (step
        (after (step (after start before) (Start actor
        (call.SnapshotOrCleaner (on.Drain count)))).world
        events) (Go actor granted)).reply ≡ Done (answers.Count told) → told ≡ releases actor
        (step (after start before) (Start actor (call.SnapshotOrCleaner (on.Drain count)))).world
        (events ++ Go actor granted ∷ []) }
    // A running drain is refused only for want of memory before its first release.
    ensures refused { (g : GeometryNumbers) (start : World) (records : List Record)
        (before events : List Event) (actor count : ℕ) (fault : Fault) (granted : Bool)
        → IsStart g start records
        → (step (after start before) (Start actor (call.SnapshotOrCleaner (on.Drain count)))).reply
        ≡ Started → AreNoStarts actor events → IsSome (actor_at
        (after (step (after start before) (Start actor
        (call.SnapshotOrCleaner (on.Drain count)))).world
        events) actor).running
        → (step
        (after (step (after start before) (Start actor
        (call.SnapshotOrCleaner (on.Drain count)))).world
        events) (Go actor granted)).reply ≡ Refused fault → (fault ≡ out_of_memory)
        × (releases actor
        (step (after start before) (Start actor (call.SnapshotOrCleaner (on.Drain count)))).world
        (events ++ Go actor granted ∷ []) ≡ 0) }
    // A pick finds nothing only where nothing is deferred.
    ensures nothing { (draining : Draining) (actor told : ℕ) (granted : Bool) (s t : Shared)
        (h after : HandState) (r : Running)
        → snapshot_or_cleaner_turn (Pick draining) actor granted s h r
        ≡ Ends (Ok (answers.Count told)) t after
        → s.book.deferred ≡ [] }
{}

/// A drain releases its number and never more: one that is answered has released as many records as its call says,
/// unless its last step was a pick that found nothing deferred. A number outside 1 to 1,048,576 counts as the nearest
/// of these. And the answer is how many it has released.
pub fn drains_release_their_number()
    // A drain releases no more records than its number says, at any time.
    ensures never_more { (g : GeometryNumbers) (start : World) (records : List Record)
        (before events : List Event) (actor count : ℕ) → IsStart g start records
        → (step (after start before) (Start actor (call.SnapshotOrCleaner (on.Drain count)))).reply
        ≡ Started → AreNoStarts actor events → releases actor
        (step (after start before) (Start actor (call.SnapshotOrCleaner (on.Drain count)))).world
        events ≤ drain_number count }
    // A drain that is answered is told a count, of what it has released.
    ensures answer { (g : GeometryNumbers) (start : World) (records : List Record)
        (before events : List Event) (actor count : ℕ) (told : Answer) (granted : Bool)
        → IsStart g start records
        → (step (after start before) (Start actor (call.SnapshotOrCleaner (on.Drain count)))).reply
        ≡ Started → AreNoStarts actor events
        → (step
        (after (step (after start before) (Start actor
        (call.SnapshotOrCleaner (on.Drain count)))).world
        events) (Go actor granted)).reply ≡ Done told → told ≡ answers.Count (releases actor
        (step (after start before) (Start actor (call.SnapshotOrCleaner (on.Drain count)))).world
        (events ++ Go actor granted ∷ [])) }
    // A drain that is answered has released its number, or its last pick finds nothing.
    ensures number { (g : GeometryNumbers) (start : World) (records : List Record)
        (before events : List Event) (actor count : ℕ) (told : Answer) (granted : Bool)
        → IsStart g start records
        → (step (after start before) (Start actor (call.SnapshotOrCleaner (on.Drain count)))).reply
        ≡ Started → AreNoStarts actor events
        → (step
        (after (step (after start before) (Start actor
        (call.SnapshotOrCleaner (on.Drain count)))).world
        events) (Go actor granted)).reply ≡ Done told → (releases actor
        (step (after start before) (Start actor (call.SnapshotOrCleaner (on.Drain count)))).world
        (events ++ Go actor granted ∷ []) ≡ drain_number count) ⊎ FindsNothing actor
        (after (step (after start before) (Start actor
        (call.SnapshotOrCleaner (on.Drain count)))).world
        events) }
{}

/// Where no call runs and nothing is deferred, each free list is exactly the numbers of its CPU's home range that
/// nothing needs: no page of a chain is of that number, and no page of a pair that is current or that a living snapshot
/// holds. And from a world in which no call runs, whatever events come but drops, nothing is deferred any more once
/// drains were answered, together, as many records as were deferred there: so it is once `drain 1` was answered 1 as
/// often as there were.
/// A log page needs its number, as does a page that is current or that a living snapshot holds.
pub fn drained_worlds_use_what_is_needed()
    // Where no call runs and nothing is deferred, a free list has what nothing needs.
    // A free list has exactly the numbers of its home range that nothing needs, then.
    ensures rest { (g : GeometryNumbers) (start : World) (records : List Record)
        (events : List Event) (cpu : ℕ) → IsStart g start records → cpu < g.cpus
        → IsAtRest (after start events) → (after start events).shared.book.deferred ≡ []
        → free_of (list_at (after start events).shared cpu)
        ≡ free_but_needed g (after start events) cpu }
    // Nothing is deferred once drains were answered as many records as were deferred.
    // The law asks that no call runs at first and that no drop comes.
    // Nothing is deferred once `drain 1` was answered 1 as often as there were deferred records.
    ensures drained { (g : GeometryNumbers) (start : World) (records : List Record) (before events : List Event)
        → IsStart g start records → IsAtRest (after start before) → AreNoDrops events
        → length (after start before).shared.book.deferred ≤ drained (after start before) events
        → (after start (before ++ events)).shared.book.deferred ≡ [] }
    // Each free list has exactly what nothing needs once all was drained and no call runs.
    ensures lists { (g : GeometryNumbers) (start : World) (records : List Record)
        (before events : List Event) (cpu : ℕ) → IsStart g start records → cpu < g.cpus
        → IsAtRest (after start before) → AreNoDrops events
        → length (after start before).shared.book.deferred ≤ drained (after start before) events
        → IsAtRest (after start (before ++ events))
        → free_of (list_at (after start (before ++ events)).shared cpu)
        ≡ free_but_needed g (after start (before ++ events)) cpu }
{}
