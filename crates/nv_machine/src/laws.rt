//! Laws of the machine of steps: what a step changes and waits for, that calls end, and where each block
//! and each number stands. Each is the contract of a function that does nothing; [`crate::plain_laws`] has
//! those of nodes and answers.

ghost use Rattle.std.specs.Prelude.{◌≡◌, ◌≢◌, ◌+◌, ◌<◌, ◌≤◌, ◌↔◌, ℕ, Bool, List, Some, None, length, true, slice_get, slice_index_or, false};
ghost use Rattle.std.specs.Option.{option_map};
ghost use Rattle.nv_alloc.specs.Block.{number_of};
ghost use Rattle.nv_alloc.specs.Numbers.{IsEachOnce, IsRising};
ghost use Rattle.nv_base.specs.declared.fault.Fault.TheVariants.{ActorBusy, ActorIdle, NoActor};
ghost use Rattle.nv_base.specs.declared.geometry.GeometryNumbers.{GeometryNumbers};
ghost use Rattle.nv_book.specs.declared.record.Record.{Record};
ghost use Rattle.nv_calls.specs.declared.call.Call.{Call};
ghost use Rattle.nv_machine.specs.Bound.{AreNoStarts, bound_at, most_steps_of, moves};
ghost use Rattle.nv_cell.specs.Cell.{log_of};
ghost use Rattle.nv_entry.specs.Held.{keeps};
ghost use Rattle.nv_entry.specs.Log.{pairs};
ghost use Rattle.nv_entry.specs.declared.held.Pair.{Pair};
ghost use Rattle.nv_machine.specs.Causes.{RefusesFor};
ghost use Rattle.nv_machine.specs.Exact.{HasFirst, Leaves, TakesData, TakesLogPages};
ghost use Rattle.nv_machine.specs.Format.{formatted};
ghost use Rattle.nv_machine.specs.Frame.{IsOneStep, IsCallStart, lent};
ghost use Rattle.nv_machine.specs.Kinds.{asked_list};
ghost use Rattle.nv_machine.specs.Locks.{AreLocks, HasLent, WaitsFor};
ghost use Rattle.nv_machine.specs.Held.{block_in_use, free_by_logs, is_in_use, retention_at};
ghost use Rattle.nv_machine.specs.Hands.{AreLists, ArePagesTold};
ghost use Rattle.nv_machine.specs.Numbers.{IdleHaveNothing, all_blocks, free_from_scratch, free_of};
ghost use Rattle.nv_machine.specs.Order.{IsInOrder};
ghost use Rattle.nv_machine.specs.PoolScan.{pool_from_scratch};
ghost use Rattle.nv_machine.specs.Reads.{pages_needed, slot_at, written_slots};
ghost use Rattle.nv_machine.specs.Shapes.{AreShaped};
ghost use Rattle.nv_machine.specs.Starts.{IsStart};
ghost use Rattle.nv_machine.specs.Step.{after, kind_turn, stays, step, turn};
ghost use Rattle.nv_machine.specs.Pages.{AreOnPages, HasLogPages, TakesPages};
ghost use Rattle.nv_machine.specs.Memory.{IsOther, denied_turn, grows};
ghost use Rattle.nv_machine.specs.Wanted.{TakesInTurn};
ghost use Rattle.nv_machine.specs.World.{Answers, Append, Event, Fresh, Go, HandState, SnapshotOrCleaner, Number, Refused, Running, Shared, Start, Started, TakeBlocks, TakeLogPages, Waiting, World, actor_at, cell_at, list_at};

/// A `Go` of an actor whose call runs makes the one step that comes next, and changes only its actor and the
/// parts that the step is lent. A start changes its actor alone: one without a call has the call now, before its
/// first step, and its hand as it was. What is refused for its actor changes nothing.
pub fn one_step()
    // A `Go` makes the one step that comes next.
    // A step changes only its actor and the parts that it is lent.
    ensures goes { (w : World) (actor : ℕ) (granted : Bool) (r : Running) → actor < length w.actors
        → (actor_at w actor).running ≡ Some r
        → IsOneStep w actor granted r (step w (Go actor granted)) }
    // A start changes its actor alone.
    ensures starts { (w : World) (actor : ℕ) (c : Call)
        → IsCallStart w actor c (step w (Start actor c)) }
    // An event that is refused for its actor changes nothing.
    ensures nobody { (w : World) (actor : ℕ) (c : Call) (granted : Bool) → length w.actors ≤ actor
        → (step w (Start actor c) ≡ stays (Refused NoActor) w)
        × (step w (Go actor granted) ≡ stays (Refused NoActor) w) }
    ensures busy { (w : World) (actor : ℕ) (c : Call) (r : Running) → actor < length w.actors
        → (actor_at w actor).running ≡ Some r
        → step w (Start actor c) ≡ stays (Refused ActorBusy) w }
    ensures idle { (w : World) (actor : ℕ) (granted : Bool) → actor < length w.actors
        → (actor_at w actor).running ≡ None
        → step w (Go actor granted) ≡ stays (Refused ActorIdle) w }
{}

/// A number step takes the first number of the pool, if it has one. A taking of data blocks, of log pages, or of a
/// cleaner's fresh pages takes the first blocks of a list, as many as are still wanted or all that it has, behind those
/// of their kind in the hand. Nothing else in the hand changes. Pool and lists are in rising order
/// ([`pool_is_from_scratch`], [`lists_are_sorted`]), so these are the lowest.
/// Taken numbers and blocks are the lowest, since pool and lists are in rising order.
pub fn the_lowest_are_taken()
    // A number step takes the first number of the pool.
    ensures number { (block actor : ℕ) (granted : Bool) (s : Shared) (h : HandState) (r : Running)
        → h.ino ≡ None → Leaves (HasFirst s) (kind_turn Number block actor granted s h r) }
    // A taking takes the first blocks of a list, as many as are still wanted or all that it has.
    // A taking changes nothing else in the hand.
    ensures blocks { (asked block actor : ℕ) (granted : Bool) (s : Shared) (h : HandState)
        (r : Running) → 0 < length s.lists
        → Leaves (TakesData s (asked_list (length s.lists) actor asked) h r.wanted)
        (kind_turn (TakeBlocks asked) block actor granted s h r) }
    ensures pages { (asked block actor : ℕ) (granted : Bool) (s : Shared) (h : HandState)
        (r : Running) → 0 < length s.lists
        → Leaves (TakesLogPages s (asked_list (length s.lists) actor asked) h r.wanted)
        (kind_turn (TakeLogPages asked) block actor granted s h r) }
    // So does a cleaner's taking of fresh pages.
    ensures fresh { (ino asked wanted block actor : ℕ) (granted : Bool) (s : Shared) (h : HandState)
        (r : Running) → 0 < length s.lists
        → Leaves (TakesLogPages s (asked_list (length s.lists) actor asked) h wanted)
        (kind_turn (SnapshotOrCleaner (Fresh ino asked wanted)) block actor granted s h r) }
{}

/// A call takes its data first and then its log pages, in two takings, neither of which wants any of the other's. The
/// first begins at the check, and wants exactly the blocks of the call; the second begins once all of these are in the
/// hand, and wants exactly the pages of the plan that they make. A taking of nothing has no step. Each goes on from
/// list to list as long as anything is left of what it wants, and the call is ready only once both have all.
pub fn data_is_taken_before_log_pages()
    // Data is taken first and then log pages, in two takings.
    // The first taking begins at the check and wants exactly the call's blocks.
    // The second taking begins once the hand has all of the call's blocks.
    // The second taking wants exactly the log pages of the plan that the blocks make.
    // Each taking goes on to the next list wanting what is left.
    // The call is ready only where both takings have all.
    // A check that wants both sums, or leaves a kind out, is no step of the machine.
    // A call ready after one of two takings is no such step: the law is false at a worked write then.
    ensures { (block actor : ℕ) (granted : Bool) (s : Shared) (h : HandState) (r : Running)
        → TakesInTurn r.next block actor s r (turn block actor granted s h r) }
{}

/// Memory that is refused makes one and the same turn of every step that grows anything (a check where the call takes
/// blocks, a ready, an enter, a read and a list, a show's visit, a drain's first pick, a cleaner's planning), also where that
/// step of that call would have asked for none: where the step would have done its work, it refuses the call instead, and
/// leaves all that is shared and the hand as they were. Where it would not, it waits or ends the call as it would have: so a refusal of the plain world,
/// want of a number and the last commit number come first. All other steps go on as ever. And where memory is granted,
/// no step refuses a call for want of it.
pub fn refused_memory_makes_one_turn()
    // Memory that is refused makes one turn of each step that grows anything.
    // Steps that grow are check, ready, enter, a visit, a show's visit, a drain's first pick and a planning.
    // A visit of `stat` or `lookup` grows nothing.
    // A check grows nothing where neither data blocks nor log pages are wanted.
    // Refused memory makes that turn even where the step would ask for none.
    // A step that would do its work refuses its call for it, a show by the step that takes its pin off.
    // A step that so refuses leaves all that is shared and the hand as they are.
    // A step that would not do its work is as ever, so that other refusals come before want of memory.
    // Refusals of the plain world, want of a number and the commit limit come before want of memory.
    ensures refused { (block actor : ℕ) (s : Shared) (h : HandState) (r : Running)
        → grows r.next block s h r ≡ true → turn block actor false s h r
        ≡ denied_turn r.next s h r (turn block actor true s h r) }
    // No other step heeds refused memory.
    ensures others { (block actor : ℕ) (s : Shared) (h : HandState) (r : Running)
        → grows r.next block s h r ≡ false → turn block actor false s h r ≡ turn block actor true s h r }
    // No step refuses for want of memory where it is granted.
    ensures granted { (block actor : ℕ) (s : Shared) (h : HandState) (r : Running)
        → r.ending ≡ Answers
        → RefusesFor IsOther (Unit {0}) (turn block actor true s h r) }
{}

/// From any start on, whatever events come, each actor holds exactly the locks that its call has taken and not
/// yet given up, and one without a call holds none. So a cell that a step is lent is locked by its actor, and
/// in a commit the commit lock is the actor's.
pub fn who_holds_what()
    // Each actor holds exactly the locks of its call.
    ensures start { (g : GeometryNumbers) (start : World) (records : List Record)
        → IsStart g start records → AreLocks start }
    ensures stays { (events : List Event) (w : World) → AreLocks w → AreLocks (after w events) }
    // A cell that a step is lent is locked by its actor; in a commit the commit lock is the actor's.
    ensures lent { (w : World) (actor : ℕ) (r : Running) → AreLocks w
        → (actor_at w actor).running ≡ Some r → HasLent w.shared actor r }
{}

/// A `Go` that waits changes nothing, and comes only where another actor holds the lock that the step needs: so none
/// waits where no other actor runs a call.
pub fn who_waits()
    // A `Go` that waits changes nothing.
    // A `Go` waits only where another actor holds the lock that is needed.
    ensures why { (w : World) (actor : ℕ) (granted : Bool) (r : Running) → AreLocks w
        → actor < length w.actors → (actor_at w actor).running ≡ Some r
        → (step w (Go actor granted)).reply ≡ Waiting
        → ((step w (Go actor granted)).world ≡ w) × WaitsFor w.shared actor r r.next }
    // No `Go` waits where no other actor runs a call.
    ensures alone { (w : World) (actor : ℕ) (granted : Bool) → AreLocks w
        → ((other : ℕ) → other ≢ actor → (actor_at w other).running ≡ None)
        → (step w (Go actor granted)).reply ≢ Waiting }
{}

/// A `Go` waits exactly where another actor holds the lock that its step needs: a look, a lock, a visit and a show that
/// of their slot, an enter and the other steps on snapshots the commit lock, and every other step none. So a step that
/// needs a lock which another holds is not made, and a step that needs none, or one that is free, is not held up.
pub fn who_must_wait()
    // A `Go` waits exactly where another actor holds the lock that its step needs.
    // A `show` waits for the inode lock of the node that it visits.
    // A `drop`, an `unpin` and a `pick` wait for the commit lock.
    // A `pick` waits for the commit lock before it finds nothing.
    ensures { (w : World) (actor : ℕ) (granted : Bool) (r : Running) → AreLocks w
        → actor < length w.actors → (actor_at w actor).running ≡ Some r
        → ((step w (Go actor granted)).reply ≡ Waiting) ↔ WaitsFor w.shared actor r r.next }
{}

/// Calls end: a call is started with a bound on its steps that depends on the call and the number of CPUs alone, each
/// `Go` that moves it lowers the bound, and no event of another actor raises it. So however the events of all actors
/// go, a call moves at most as often as its bound says, up to the next start of its actor.
pub fn calls_end()
    // A started call moves at most `most_steps_of` times, that is 8 * (44 + 3 * CPUs).
    // A show may move as many times more as inodes are allowed.
    // A drain may move a round more for each record that it may release.
    ensures starts { (w : World) (actor : ℕ) (c : Call) → (step w (Start actor c)).reply ≡ Started
        → bound_at (step w (Start actor c)).world actor ≤ most_steps_of c (length w.shared.lists) }
    // Each move lowers the bound, and no event of another actor raises it.
    ensures falls { (events : List Event) (w : World) (actor : ℕ)
        → AreNoStarts actor events
        → moves actor w events + bound_at (after w events) actor ≤ bound_at w actor }
{}

/// Along every log ids rise and epochs never fall, from any start on, whatever events come: no commit but the
/// one that has entered last is under way, and it has the book's number and epoch.
pub fn ids_rise()
    // Along every log ids rise and epochs never fall.
    ensures new { (g : GeometryNumbers) → IsInOrder (formatted g) }
    ensures start { (g : GeometryNumbers) (start : World) (records : List Record)
        → IsStart g start records → IsInOrder start }
    ensures stays { (events : List Event) (w : World) → AreLocks w → IsInOrder w
        → IsInOrder (after w events) }
{}

/// Each settled log is of its shape: its items are lawful one after another, and nothing stands behind a Gone. They are
/// lawful from nothing on unless the inode is gone, so that the log begins with its kind. Of an inode that is gone a
/// cleaner may have taken out the entry that told the kind: its items are lawful from some kind on.
pub fn logs_have_their_shape()
    // The items of each settled log are lawful one after another from nothing on, unless the inode is gone.
    // The items of a settled log whose inode is gone are lawful one after another from some kind on.
    // Nothing stands behind a Gone in a settled log.
    ensures { (g : GeometryNumbers) (start : World) (records : List Record) (events : List Event)
        → IsStart g start records → AreShaped g.block (after start events).shared }
{}

/// From any start on, whatever events come, each block number stands exactly once among the free lists, the
/// cells (pages of chains and blocks of parts) and the hands of actors, and no other number stands there.
pub fn blocks_stand_once()
    // Each block number stands exactly once among free lists, cells and hands.
    // No other number stands among free lists, cells and hands.
    ensures { (g : GeometryNumbers) (start : World) (records : List Record) (events : List Event)
        → IsStart g start records → IsEachOnce g.blocks (all_blocks (after start events)) }
{}

/// Each CPU's free list has its blocks in rising order, all of them at home there and of one size, so that the
/// first is the lowest.
pub fn lists_are_sorted()
    // Each CPU's free list is in rising order, its blocks are at home there and of one size.
    ensures { (g : GeometryNumbers) (start : World) (records : List Record) (events : List Event)
        → IsStart g start records → AreLists g (after start events).shared }
{}

/// Each CPU's free list is what one scan leaves: the numbers of its home range that no page of a chain, no part
/// and no hand has.
pub fn lists_are_from_scratch()
    // Each CPU's free list is what one scan of all cells and hands leaves of its home range.
    ensures { (g : GeometryNumbers) (start : World) (records : List Record) (events : List Event)
        (cpu : ℕ) → IsStart g start records → cpu < g.cpus
        → free_of (list_at (after start events).shared cpu)
        ≡ free_from_scratch g (after start events) cpu }
{}

/// Each free list is what the logs leave: the numbers of the CPU's home range that no page of a chain has, no page of a
/// log in use and no hand. Of the pairs of a log, in order, those are in use that are needed (current, or held by a
/// living snapshot), pending (deferred, or picked by a drain that has not yet released them) or killed: published over,
/// and not yet retired by the call in whose hand they stand. So is each part of the entries that a commit has appended
/// and not yet published. A cell has the block of each page in use, of the number that its entry says, and no other.
pub fn lists_are_told_by_logs()
    // Each CPU's free list is what the logs, the chains and the hands leave of its home range.
    // A block is used that is a log page, that of a page in use, or in a hand.
    ensures lists { (g : GeometryNumbers) (start : World) (records : List Record)
        (events : List Event) (cpu : ℕ) → IsStart g start records → cpu < g.cpus
        → free_of (list_at (after start events).shared cpu)
        ≡ free_by_logs g (after start events) cpu }
    // A cell has the blocks of its pages in use, and no other.
    ensures blocks { (g : GeometryNumbers) (start : World) (records : List Record)
        (events : List Event) (ino n : ℕ) → IsStart g start records
        → option_map number_of
        (slice_index_or (cell_at (after start events).shared ino).blocks n None) ≡ block_in_use
        (retention_at (after start events) ino) (cell_at (after start events).shared ino) n }
    // A part is in use that no later entry of its log covers up to the tail.
    // A part is in use that is killed and not yet retired by the call in whose hand it is.
    // Of pairs those are in use that are needed, deferred or killed.
    ensures pairs { (g : GeometryNumbers) (start : World) (records : List Record)
        (events : List Event) (ino n : ℕ) (pair : Pair) → IsStart g start records
        → slice_get (pairs (cell_at (after start events).shared ino).block
        (log_of (cell_at (after start events).shared ino))) n ≡ Some pair
        → is_in_use (retention_at (after start events) ino)
        (cell_at (after start events).shared ino) n
        ≡ keeps (retention_at (after start events) ino) pair }
{}

/// The pool of inode numbers is what one scan leaves, in rising order: the numbers whose slots have no entry in
/// their logs and are not of the last generation, and that no hand has.
pub fn pool_is_from_scratch()
    // The pool of inode numbers is, in rising order, what one scan of all logs and hands leaves.
    // The pool has numbers whose inode slot has no entry in its log and is not of the last generation.
    // The pool has no number that a hand has.
    ensures { (g : GeometryNumbers) (start : World) (records : List Record) (events : List Event)
        → IsStart g start records
        → (after start events).shared.pool.numbers ≡ pool_from_scratch g (after start events) }
{}

/// No two hands have one inode number; with [`pool_is_from_scratch`], none that a hand has is in the pool.
pub fn hands_have_own_numbers()
    // No two hands have one inode number.
    ensures { (g : GeometryNumbers) (start : World) (records : List Record) (events : List Event)
        (actor other ino : ℕ) → IsStart g start records
        → (actor_at (after start events) actor).hand.ino ≡ Some ino
        → (actor_at (after start events) other).hand.ino ≡ Some ino → actor ≡ other }
{}

/// An actor without a call has an empty hand and no lock, also where its last call was refused: with
/// [`blocks_stand_once`], the blocks that it took and did not place are in the free lists again.
pub fn idle_hands_are_empty()
    // An actor without a call has an empty hand and no lock, after a refusal too.
    // Blocks that a refused call took and did not place are in the free lists again.
    ensures { (g : GeometryNumbers) (start : World) (records : List Record) (events : List Event)
        → IsStart g start records → IdleHaveNothing (after start events) }
{}

/// A block that a cell has for a part is that of a page of the log, and of the number that the page's entry says.
/// So no two pages of any logs that still have their blocks stand in one block.
pub fn blocks_are_told()
    // A block that a cell has for a part is that of a page of the log, of the number that its entry says.
    ensures { (g : GeometryNumbers) (start : World) (records : List Record) (events : List Event)
        (ino : ℕ) → IsStart g start records
        → ArePagesTold g.block (cell_at (after start events).shared ino) }
{}

/// Each entry of a log stands on a page of its chain, and no page has more entries than the geometry says, or none. So
/// that this stays, a hand has exactly the log pages that its call's plan needs, from the last taking on: with those
/// that a taking still wants at first, then those of the entries that are yet to be appended, and none once all are.
pub fn logs_have_their_pages()
    // Each entry of a log stands on a log page of its chain.
    // Each log page with entries has one to as many as the geometry says.
    ensures pages { (g : GeometryNumbers) (start : World) (records : List Record)
        (events : List Event) (ino : ℕ) → IsStart g start records
        → ino < length (after start events).shared.cells
        → AreOnPages g.page (cell_at (after start events).shared ino).chain }
    // Before each step a hand has exactly the log pages that its plan needs, with those still wanted.
    // While a commit appends, a hand has the log pages of the entries yet to be appended, and then none.
    ensures hands { (g : GeometryNumbers) (start : World) (records : List Record)
        (events : List Event) (actor : ℕ) (r : Running) → IsStart g start records
        → (actor_at (after start events) actor).running ≡ Some r → HasLogPages r.next g.block
        (after start events).shared (actor_at (after start events) actor).hand r }
{}

/// Log pages are given out by rising inode: an append puts the first of the hand's pages, as many as its inode needs,
/// at the end of that inode's chain in their order, and the inodes of a commit rise. As the list of a taking rises
/// ([`lists_are_sorted`]) and its blocks stand in the hand in their order ([`the_lowest_are_taken`]), the lower inode
/// has the lower pages of each list.
pub fn log_pages_go_by_rising_inode()
    // Each append takes the first of the hand's log pages, as many as its inode needs, to its chain's end.
    ensures appends { (place block actor : ℕ) (granted : Bool) (s : Shared) (h : HandState)
        (r : Running) → slot_at (written_slots r) place < length s.cells
        → Leaves (TakesPages s (slot_at (written_slots r) place)
        (pages_needed s r.plan (slot_at (written_slots r) place)) h)
        (kind_turn (Append place) block actor granted s h r) }
    // The inodes of a commit rise.
    ensures rising { (w : World) (actor : ℕ) (r : Running) → AreLocks w
        → (actor_at w actor).running ≡ Some r → IsRising (written_slots r) }
{}
