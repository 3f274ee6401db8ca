//! Laws of calls that are made one at a time. Each is the contract of a function that does nothing.

ghost use Rattle.std.specs.Prelude.{◌≡◌, ◌<◌, ℕ, List, [], None, Some, false, length, max, min};
ghost use Rattle.nv_base.specs.declared.fault.Fault.{Fault};
ghost use Rattle.nv_base.specs.declared.fault.Fault.TheVariants.{Missing};
ghost use Rattle.nv_base.specs.declared.geometry.GeometryNumbers.{GeometryNumbers};
ghost use Rattle.nv_base.specs.declared.limits.TheConstants.{DRAIN, NUMBER};
ghost use Rattle.nv_base.specs.declared.numbers.Handle.{Handle};
ghost use Rattle.nv_calls.specs.AllCalls.{answer};
ghost use Rattle.nv_calls.specs.Refusals.{lookup};
ghost use Rattle.nv_calls.specs.declared.answer.Answer.{Answer};
ghost use Rattle.nv_calls.specs.declared.answer.Answer.TheVariants as answers;
ghost use Rattle.nv_calls.specs.declared.call.Call.{Call};
ghost use Rattle.nv_calls.specs.declared.call.Call.TheVariants as call;
ghost use Rattle.nv_calls.specs.declared.snapshot_or_cleaner_call.SnapshotOrCleanerCall.{SnapshotOrCleanerCall};
ghost use Rattle.nv_calls.specs.declared.snapshot_or_cleaner_call.SnapshotOrCleanerCall.TheVariants as on;
ghost use Rattle.nv_entry.specs.Tree.{names_under};
ghost use Rattle.nv_entry.specs.declared.tree.TreeNode.{TreeNode};
ghost use Rattle.nv_machine.specs.EndsDecided.{is_snapshot_or_cleaner};
ghost use Rattle.nv_machine.specs.World.{Refused, World};
ghost use Rattle.nv_serial.specs.Committed.{committed};
ghost use Rattle.nv_serial.specs.FileCalls.{log_pages_for, plan_for};
ghost use Rattle.nv_serial.specs.Free.{used_in};
ghost use Rattle.nv_serial.specs.Histories.{StandsAs};
ghost use Rattle.nv_serial.specs.OneCall.{serial_call};
ghost use Rattle.nv_serial.specs.Reports.{snapshot_tree_told, tree_told};
ghost use Rattle.nv_serial.specs.Serial.{Serial, copies_now, deferred_in, refused, told};
ghost use Rattle.nv_effects.specs.Causes.{HasRoom, IsCause, IsCauseOn, Passes};
ghost use Rattle.nv_effects.specs.Effects.{HasEffect};
ghost use Rattle.nv_effects.specs.Held.{needed_in};
ghost use Rattle.nv_effects.specs.Snapshots.{CallOf, HasDropped, HasSnapped, KeepsPlain, NoneDrops, after_calls, changes_snapshots, drops};
ghost use Rattle.nv_effects.specs.Sound.{IsSoundWorld};
ghost use Rattle.nv_effects.specs.Suits.{Suits};

/// Each call has its own kind of answer, and a refusal changes nothing, not even a number.
pub fn answers_suit_their_calls()
    // An answer is of the kind that the call has.
    ensures answered { (old new : Serial) (actor : ℕ) (c : Call) (a : Answer)
        → serial_call old actor c ≡ told a new → Suits c a }
    // A refused call leaves the world with numbers as it was.
    ensures refused { (s : Serial) (actor : ℕ) (c : Call) (fault : Fault)
        → (serial_call s actor c).reply ≡ Refused fault → (serial_call s actor c).world ≡ s }
{}

/// A call on files and directories that is answered changes just the nodes that its effect names.
pub fn answered_calls_have_their_effect()
    // An answered call on files and directories has its effect: all other nodes and all snapshots stay.
    ensures { (old new : Serial) (actor : ℕ) (c : Call) (a : Answer)
        → is_snapshot_or_cleaner c ≡ false → serial_call old actor c ≡ told a new
        → (made : Handle) × HasEffect old actor c made a new }
{}

/// What was written is read.
pub fn what_was_written_is_read()
    // A read at the place of the last write tells what was written.
    ensures { (old new : Serial) (actor reader : ℕ) (file : Handle) (offset : ℕ) (text : List ℕ)
        (a : Answer) → serial_call old actor (call.Write file offset text) ≡ told a new
        → reader < old.numbers.actors
        → serial_call new reader (call.Read file offset (length text))
        ≡ told (answers.Bytes text) new }
{}

/// What was made is found under its name.
pub fn what_was_made_is_found()
    // A lookup of the name of the file that was made last tells its handle.
    ensures file { (old new : Serial) (actor finder : ℕ) (dir : Handle) (name : List ℕ) (mode : ℕ)
        (made : Handle)
        → serial_call old actor (call.Create dir name mode) ≡ told (answers.Made made) new
        → finder < old.numbers.actors
        → serial_call new finder (call.Lookup dir name) ≡ told (answers.Made made) new }
    // A lookup of the name of the directory that was made last tells its handle.
    ensures directory { (old new : Serial) (actor finder : ℕ) (dir : Handle) (name : List ℕ)
        (mode : ℕ) (made : Handle)
        → serial_call old actor (call.Mkdir dir name mode) ≡ told (answers.Made made) new
        → finder < old.numbers.actors
        → serial_call new finder (call.Lookup dir name) ≡ told (answers.Made made) new }
{}

/// A lookup tells what a name is bound to, and a missing name is bound to nothing.
pub fn lookups_tell_what_is_bound()
    // A lookup tells the handle that the name is bound to, and changes nothing.
    ensures found { (s t : Serial) (actor : ℕ) (dir : Handle) (name : List ℕ) (to : Handle)
        → serial_call s actor (call.Lookup dir name) ≡ told (answers.Made to) t
        → (lookup (copies_now s) dir name ≡ Some to) × (t ≡ s) }
    // A name of which a lookup says that it is missing is bound to nothing.
    ensures missing { (s t : Serial) (actor : ℕ) (dir : Handle) (name : List ℕ)
        → serial_call s actor (call.Lookup dir name) ≡ refused Missing t
        → lookup (copies_now s) dir name ≡ None }
{}

/// A listing has exactly the names that are bound, in the order in which they were.
pub fn a_listing_has_the_names_bound()
    // A listing tells the names of the directory, and changes nothing.
    ensures { (old new : Serial) (actor : ℕ) (dir : Handle) (a : Answer)
        → serial_call old actor (call.List dir) ≡ told a new
        → (a ≡ answers.Names (names_under (copies_now old) dir)) × (new ≡ old) }
{}

/// Cleaners, drains and shows change no tree.
pub fn cleaners_and_drains_change_no_tree()
    // A cleaner, a drain or a show leaves all nodes and all snapshots.
    ensures { (old new : Serial) (actor : ℕ) (what : SnapshotOrCleanerCall) (a : Answer)
        → changes_snapshots what ≡ false
        → serial_call old actor (call.SnapshotOrCleaner what) ≡ told a new → KeepsPlain old new }
{}

/// A making adds the newest snapshot, and a drop takes one out.
pub fn makings_and_drops_change_snapshots_alone()
    // A making adds a copy of all nodes, which the epoch names.
    ensures made { (old new : Serial) (actor snapshot : ℕ)
        → serial_call old actor (call.SnapshotOrCleaner on.Snap) ≡ told (answers.Snapshot snapshot) new
        → HasSnapped old snapshot new }
    // A drop takes one snapshot out, and leaves the nodes.
    ensures dropped { (old new : Serial) (actor snapshot : ℕ) (a : Answer)
        → serial_call old actor (call.SnapshotOrCleaner (on.Drop snapshot)) ≡ told a new
        → HasDropped old snapshot new }
{}

/// A living snapshot shows what stood when it was made, whatever came after: writes, cleaners and drains too.
pub fn living_snapshots_show_what_stood()
    // A new snapshot shows the tree that stands.
    ensures new { (old new : Serial) (actor snapshot : ℕ) → IsSoundWorld old
        → serial_call old actor (call.SnapshotOrCleaner on.Snap) ≡ told (answers.Snapshot snapshot) new
        → snapshot_tree_told new snapshot ≡ Some (tree_told old) }
    // Calls that do not drop a snapshot leave it showing the same tree.
    ensures later { (calls : List CallOf) (s : Serial) (snapshot : ℕ) (tree : List TreeNode)
        → NoneDrops snapshot calls → snapshot_tree_told s snapshot ≡ Some tree
        → snapshot_tree_told (after_calls calls s) snapshot ≡ Some tree }
    // A show of a living snapshot tells that tree.
    ensures shown { (s : Serial) (actor snapshot : ℕ) (tree : List TreeNode)
        → actor < s.numbers.actors → snapshot_tree_told s snapshot ≡ Some tree
        → serial_call s actor (call.SnapshotOrCleaner (on.Show snapshot))
        ≡ told (answers.Tree tree) s }
    // A show that is answered tells the tree of its snapshot, and changes nothing.
    ensures tells { (s t : Serial) (actor snapshot : ℕ) (tree : List TreeNode)
        → serial_call s actor (call.SnapshotOrCleaner (on.Show snapshot))
        ≡ told (answers.Tree tree) t
        → (snapshot_tree_told s snapshot ≡ Some tree) × (t ≡ s) }
{}

/// A call is refused for its cause alone, and a call on files and directories that has room is answered.
pub fn refused_calls_have_their_cause()
    // A refused call has its cause: its actor, the nodes, or what it is short of, in this order.
    ensures refused { (old new : Serial) (actor : ℕ) (c : Call) (why : Fault)
        → is_snapshot_or_cleaner c ≡ false → serial_call old actor c ≡ refused why new
        → IsCause old actor c why }
    // A refused call on snapshots has its cause too, and a refused cleaner.
    ensures snapshots { (old new : Serial) (actor : ℕ) (what : SnapshotOrCleanerCall) (why : Fault)
        → actor < old.numbers.actors
        → serial_call old actor (call.SnapshotOrCleaner what) ≡ refused why new
        → IsCauseOn old actor what why }
    // A call that passes its tests is answered where it has an inode number, blocks and a commit number.
    ensures roomy { (s : Serial) (actor : ℕ) (c : Call) (made : Handle)
        → is_snapshot_or_cleaner c ≡ false → Passes s actor c → HasRoom s actor c made
        → s.plain.commit < NUMBER → serial_call s actor c
        ≡ told (answer s.plain.nodes made c)
        (committed s made c (plan_for s actor made c) (log_pages_for s actor c)) }
{}

/// Once a drain has left nothing to be drained, the blocks in use are those that the tree and the living snapshots need.
pub fn drained_worlds_hold_what_is_needed()
    // A drain that releases fewer records than it may leaves none.
    ensures drained { (old new : Serial) (actor most count : ℕ)
        → serial_call old actor (call.SnapshotOrCleaner (on.Drain most))
        ≡ told (answers.Count count) new
        → count < max 1 (min most DRAIN) → deferred_in new ≡ [] }
    // Where none is left the blocks in use are those that are needed.
    ensures held { (s : Serial) → deferred_in s ≡ [] → used_in s ≡ needed_in s }
{}

/// A world with numbers as which one in memory stands is sound.
pub fn standing_worlds_are_sound()
    // Directories form a tree, now and at each living snapshot.
    ensures { (g : GeometryNumbers) (w : World) (s : Serial) → StandsAs g w s → IsSoundWorld s }
{}
