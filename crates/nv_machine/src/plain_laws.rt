//! Laws of the machine of steps beside the plain world: its nodes, what commits change, and what calls are answered and
//! refused. Each is the contract of a function that does nothing.

ghost use Rattle.std.specs.Prelude.{◌≡◌, ◌+◌, ◌<◌, ◌≤◌, ℕ, Bool, List, [], ◌∷◌, Some, None, length, ◌++◌, true, Option, false};
ghost use Rattle.nv_alloc.specs.Numbers.{has};
ghost use Rattle.nv_base.specs.Limits.{IsWithinLimits};
ghost use Rattle.nv_base.specs.declared.fault.Fault.{Fault};
ghost use Rattle.nv_base.specs.declared.fault.Fault.TheVariants.{CommitLimit};
ghost use Rattle.nv_base.specs.declared.geometry.GeometryNumbers.{GeometryNumbers};
ghost use Rattle.nv_base.specs.declared.limits.TheConstants.{NUMBER};
ghost use Rattle.nv_base.specs.declared.numbers.Handle.{Handle};
ghost use Rattle.nv_book.specs.declared.record.Record.{Record};
ghost use Rattle.nv_calls.specs.AllCalls.{answer, effect, looked, refusal};
ghost use Rattle.nv_calls.specs.Refusals.{passes};
ghost use Rattle.nv_calls.specs.Plain.{PlainNode, node_in, nodes_after};
ghost use Rattle.nv_calls.specs.Locked.{SameCall, handles};
ghost use Rattle.nv_calls.specs.declared.answer.Answer.{Answer};
ghost use Rattle.nv_calls.specs.declared.call.Call.{Call};
ghost use Rattle.nv_calls.specs.declared.allocation.Allocation.{Allocation};
ghost use Rattle.nv_machine.specs.Bound.{AreNoStarts};
ghost use Rattle.nv_entry.specs.Sound.{IsSound};
ghost use Rattle.nv_entry.specs.Tree.{root};
ghost use Rattle.nv_machine.specs.Answered.{GoesTo, IsFinal, IsToEnd};
ghost use Rattle.nv_machine.specs.Causes.{FindsNone, IsCause, IsRoundless, MayBeOvertaken, RefusesFor};
ghost use Rattle.nv_machine.specs.Effects.{AreSound, HasPlanNow};
ghost use Rattle.nv_machine.specs.EndsDecided.{decided, is_snapshot_or_cleaner};
ghost use Rattle.nv_machine.specs.FitsNow.{bytes_in, is_checked};
ghost use Rattle.nv_machine.specs.Format.{formatted};
ghost use Rattle.nv_machine.specs.Frame.{lent};
ghost use Rattle.nv_machine.specs.Grown.{AreGrown, fresh_entries};
ghost use Rattle.nv_machine.specs.Kept.{AreBlocksApart, IsKept};
ghost use Rattle.nv_machine.specs.Kinds.{refuse};
ghost use Rattle.nv_machine.specs.Locks.{AreLocks, commits_at};
ghost use Rattle.nv_machine.specs.Hands.{makes_inode};
ghost use Rattle.nv_machine.specs.Made.{handles_made, has_handle};
ghost use Rattle.nv_machine.specs.Order.{IsInOrder};
ghost use Rattle.nv_machine.specs.Reached.{IsReached};
ghost use Rattle.nv_machine.specs.Numberless.{met_none};
ghost use Rattle.nv_machine.specs.PlainRun.{Commits, Plain, plain_change_of, keeps_nodes, new_plain, plain_after, plain_of};
ghost use Rattle.nv_machine.specs.Reading.{plain_tree};
ghost use Rattle.nv_machine.specs.Reads.{copies, nodes, written_slots};
ghost use Rattle.nv_machine.specs.Refusing.{GoesOn, LeavesBooks};
ghost use Rattle.nv_machine.specs.Rounds.{HasRounds, failed_checks};
ghost use Rattle.nv_machine.specs.Sequence.{Visits, beginning, nothing_looked};
ghost use Rattle.nv_machine.specs.Settled.{settled, settled_nodes, tree_of};
ghost use Rattle.nv_machine.specs.Starts.{IsStart};
ghost use Rattle.nv_machine.specs.Step.{after, handle_at, is_numbered, kind_turn, stays, step, turn};
ghost use Rattle.nv_machine.specs.Takings.{IsShortInAll, asks_list, no_taking, taking_after, taking_of};
ghost use Rattle.nv_machine.specs.World.{Answers, Check, Done, Ending, Enter, Event, Go, HandState, Number, BoundAnew, Refused, Running, Shared, Start, Started, Unlock, Visit, World, actor_at, owner_at};

/// Only commit points change nodes. Each settled log has the blocks of its pages, but of those that a later
/// entry covers, and a journal is open only within a commit of several inodes, from any start on and whatever
/// events come, where no block has the number of another, a call begins with an empty hand, and each slot has a
/// cell and each hand the log pages of its step. So every event but a commit point leaves every settled node as
/// it is: a refused call has changed none, and of several inodes that are published one after another none is
/// seen before the close.
pub fn only_commits_change_nodes()
    ensures start { (g : GeometryNumbers) (start : World) (records : List Record)
        → IsStart g start records → IsKept start }
    // The law asks that no two blocks of a cell have one number.
    // The law asks that hands have numbers of blocks, and actors without a call empty hands.
    // The law asks that logs that no commit has appended to end at their tails.
    // The law asks that each slot has a cell, and each hand the log pages of its step, for cleaners.
    ensures stays { (events : List Event) (w : World) → AreLocks w → IsInOrder w → IsKept w
        → ((before : List Event) → AreBlocksApart (after w before)) → IsKept (after w events) }
    // Only commit points change nodes: each other event leaves every settled node as it is.
    ensures nodes { (w : World) (e : Event) → AreLocks w → IsInOrder w → IsKept w
        → AreBlocksApart w → keeps_nodes (plain_change_of w e) ≡ true → (handle : Handle)
        → settled_nodes (step w e).world.shared handle ≡ settled_nodes w.shared handle }
{}

/// The number of the last commit is the plain world's after whatever events: it rises by one where an enter
/// goes on into its commit, and nowhere else.
pub fn the_plain_world_counts_commits()
    // The number of the last commit is the plain world's after whatever events.
    ensures { (events : List Event) (w : World) (p : Plain) → w.shared.book.commit ≡ p.commit
        → (after w events).shared.book.commit ≡ (plain_after w events p).commit }
{}

/// A call that has begun to append is answered, whatever follows, and one that was refused is answered that refusal:
/// from there on each of its steps moves it on towards that end, or is its last and replies it. A call whose commit is
/// lent a cell to change is such a call, so that one which ends refused has changed no log ([`crate::laws::one_step`])
/// and made no commit. Of calls that commit no node tells the answer, so that it is the one of the commit point.
pub fn what_commits_is_answered()
    // A call that has begun to append is answered whatever follows.
    ensures commits { (w : World) (actor : ℕ) (granted : Bool) (r : Running) → IsKept w
        → actor < length w.actors → (actor_at w actor).running ≡ Some r
        → plain_change_of w (Go actor granted) ≡ Commits
        → GoesTo Answers actor r (step w (Go actor granted)) }
    // A call that was refused is answered that refusal.
    ensures goes { (e : Ending) (w : World) (actor : ℕ) (granted : Bool) (r : Running) → IsFinal e
        → actor < length w.actors → (actor_at w actor).running ≡ Some r → IsToEnd e r
        → GoesTo e actor r (step w (Go actor granted)) }
    // A step that is lent a cell to change is of a call that is to be answered.
    // A call that ends refused has changed no log and made no commit.
    ensures writes { (w : World) (actor ino : ℕ) (r : Running) → IsKept w
        → (actor_at w actor).running ≡ Some r
        → commits_at r.next ≡ true
        → (lent r.next (length w.shared.lists) actor r).cell ≡ Some ino → IsToEnd Answers r }
    // No node tells the answer of a call that has begun to append.
    ensures same { (nodes other : Handle → Option PlainNode) (made : Handle) (c : Call)
        → (beginning c ≡ Visits → ⊥) → answer nodes made c ≡ answer other made c }
{}

/// A commit point settles the entries of all inodes that its call writes, at one stroke, and no other entry.
/// From any start on and whatever events come, the log of a slot that nobody holds is settled as a whole,
/// and past the settled logs of the slots that a call holds stand the entries that its commit has appended.
/// At the commit point each settled log becomes what it was, followed by the commit's entries for its slot.
pub fn a_commit_settles_its_entries()
    // What nobody holds is settled as a whole.
    ensures new { (g : GeometryNumbers) → AreGrown (formatted g) }
    ensures start { (g : GeometryNumbers) (start : World) (records : List Record)
        → IsStart g start records → AreGrown start }
    ensures stays { (events : List Event) (w : World) → AreLocks w → IsInOrder w → IsKept w
        → AreGrown w → ((before : List Event) → AreBlocksApart (after w before))
        → AreGrown (after w events) }
    // A commit point settles the entries of all inodes that its call writes, atomically.
    // A commit point settles no other entry.
    ensures settles { (w : World) (actor : ℕ) (granted : Bool) (r : Running) → AreLocks w
        → IsKept w → AreGrown w → actor < length w.actors → (actor_at w actor).running ≡ Some r
        → plain_change_of w (Go actor granted) ≡ Commits
        → (ino : ℕ) → settled (step w (Go actor granted)).world.shared ino
        ≡ settled w.shared ino ++ fresh_entries (has (written_slots r) ino) r ino }
{}

/// A commit point has the effect of its call on the settled nodes, where its plan fits that effect now and
/// settled logs are sound; and it leaves them sound.
pub fn a_commit_point_has_its_effect()
    // A commit point whose plan fits its effect then has that effect on the settled nodes.
    ensures nodes { (bytes : ℕ → List ℕ) (w : World) (actor : ℕ) (granted : Bool) (r : Running)
        → AreLocks w → IsInOrder w → IsKept w → AreGrown w → AreBlocksApart w
        → actor < length w.actors → (actor_at w actor).running ≡ Some r
        → plain_change_of w (Go actor granted) ≡ Commits → HasPlanNow bytes w.numbers.block w.shared r
        → (handle : Handle) → settled_nodes (step w (Go actor granted)).world.shared handle
        ≡ nodes_after r.commit (effect (node_in (settled_nodes w.shared)) r.made r.call)
        (settled_nodes w.shared) handle }
    // A commit point whose plan fits its effect leaves settled logs sound.
    ensures sound { (bytes : ℕ → List ℕ) (w : World) (actor : ℕ) (granted : Bool) (r : Running)
        → AreLocks w → IsInOrder w → IsKept w → AreGrown w → AreBlocksApart w
        → actor < length w.actors → (actor_at w actor).running ≡ Some r
        → plain_change_of w (Go actor granted) ≡ Commits → HasPlanNow bytes w.numbers.block w.shared r
        → (ino : ℕ)
        → IsSound bytes w.numbers.block (settled (step w (Go actor granted)).world.shared ino) }
{}

/// Settled logs are sound in any start, and stay sound at every event but a commit point, and at each commit
/// point where the plan of its call fits the effect that the call has then: each log's pages store the bytes
/// of its node.
pub fn settled_logs_stay_sound()
    // Settled logs are sound in a start, and stay so at every event except a commit point.
    ensures start { (g : GeometryNumbers) (start : World) (records : List Record)
        → IsStart g start records → AreSound start.shared }
    ensures stays { (w : World) (e : Event) → AreLocks w → IsInOrder w → IsKept w
        → AreBlocksApart w → keeps_nodes (plain_change_of w e) ≡ true
        → AreSound w.shared → AreSound (step w e).world.shared }
    // Settled logs stay sound at a commit point where the plan fits its effect then.
    ensures commits { (bytes : ℕ → List ℕ) (w : World) (actor : ℕ) (granted : Bool) (r : Running)
        → AreLocks w → IsInOrder w → IsKept w → AreGrown w → AreBlocksApart w
        → actor < length w.actors → (actor_at w actor).running ≡ Some r
        → plain_change_of w (Go actor granted) ≡ Commits → HasPlanNow bytes w.numbers.block w.shared r
        → AreSound (step w (Go actor granted)).world.shared }
{}

/// What the laws of nodes and commits ask of a world holds of every world that events lead to from a start. So
/// of those each event but a commit point leaves every settled node as it is, with no premise.
pub fn starts_lead_where_laws_hold()
    // What the laws of nodes and commits ask of a world holds of every world after a start.
    ensures reached { (g : GeometryNumbers) (start : World) (records : List Record) (events : List Event)
        → IsStart g start records → IsReached (after start events) }
    // Each event except a commit point leaves every settled node of such a world as it is.
    ensures nodes { (w : World) (e : Event) → IsReached w → keeps_nodes (plain_change_of w e) ≡ true
        → (handle : Handle)
        → settled_nodes (step w e).world.shared handle ≡ settled_nodes w.shared handle }
{}

/// At each commit point, whatever events come from any start on, the plain world does not refuse the call, the plan
/// that stands fits the effect that its call has on the nodes of now, and so the commit point has that effect.
/// `bytes_in` gives the bytes of all blocks of all cells.
pub fn plans_fit_at_commit_points()
    // At each commit point the plan fits the effect that its call has then.
    ensures fits { (g : GeometryNumbers) (start : World) (records : List Record)
        (events : List Event) (actor : ℕ) (granted : Bool) (r : Running) → IsStart g start records
        → actor < length (after start events).actors
        → (actor_at (after start events) actor).running ≡ Some r
        → plain_change_of (after start events) (Go actor granted) ≡ Commits → HasPlanNow
        (bytes_in (after start events).shared) (after start events).numbers.block
        (after start events).shared r }
    // At each commit point the plain world does not refuse the call.
    ensures passes { (g : GeometryNumbers) (start : World) (records : List Record)
        (events : List Event) (actor : ℕ) (granted : Bool) (r : Running) → IsStart g start records
        → actor < length (after start events).actors
        → (actor_at (after start events) actor).running ≡ Some r
        → plain_change_of (after start events) (Go actor granted) ≡ Commits
        → refusal (after start events).numbers.block
        (node_in (settled_nodes (after start events).shared)) r.call ≡ passes }
    // A commit point has the effect of its call on the settled nodes.
    ensures nodes { (g : GeometryNumbers) (start : World) (records : List Record)
        (events : List Event) (actor : ℕ) (granted : Bool) (r : Running) → IsStart g start records
        → actor < length (after start events).actors
        → (actor_at (after start events) actor).running ≡ Some r
        → plain_change_of (after start events) (Go actor granted) ≡ Commits → (handle : Handle)
        → settled_nodes (step (after start events) (Go actor granted)).world.shared handle
        ≡ nodes_after r.commit
        (effect (node_in (settled_nodes (after start events).shared)) r.made r.call)
        (settled_nodes (after start events).shared) handle }
{}

/// From its check to its commit point a call passes: whatever events come from any start on, the plain world does
/// not refuse it on the nodes of now, and its names are bound as its looks found them.
pub fn checked_calls_still_pass()
    // From its check to its commit point a call passes on the nodes of now.
    ensures passes { (g : GeometryNumbers) (start : World) (records : List Record)
        (events : List Event) (actor : ℕ) (r : Running) → IsStart g start records
        → (actor_at (after start events) actor).running ≡ Some r → is_checked r.next ≡ true
        → refusal (after start events).numbers.block
        (node_in (settled_nodes (after start events).shared)) r.call ≡ passes }
    // The names of such a call are bound as its looks found them.
    ensures found { (g : GeometryNumbers) (start : World) (records : List Record)
        (events : List Event) (actor : ℕ) (r : Running) → IsStart g start records
        → (actor_at (after start events) actor).running ≡ Some r → is_checked r.next ≡ true
        → looked (node_in (settled_nodes (after start events).shared)) r.call ≡ r.looked }
{}

/// The plain world of a new world has the root, an empty directory of mode 493 that no commit has changed, and nothing
/// else; and it has no commit and no snapshot, and is in the first epoch.
pub fn the_plain_world_begins_with_the_root()
    // The plain world of a new world has the root, an empty directory of mode 493, and nothing else.
    ensures nodes { (g : GeometryNumbers) → IsWithinLimits g → (handle : Handle)
        → (plain_of (formatted g)).nodes handle ≡ new_plain.nodes handle }
    // The plain world of a new world has no commit and no snapshot, and the first epoch.
    ensures commit { (g : GeometryNumbers) → (plain_of (formatted g)).commit ≡ new_plain.commit }
    ensures epoch { (g : GeometryNumbers) → (plain_of (formatted g)).epoch ≡ new_plain.epoch }
    ensures copies { (g : GeometryNumbers) → (plain_of (formatted g)).copies ≡ new_plain.copies }
{}

/// The plain world's nodes are those of the settled logs after every list of events, so its tree is theirs, and
/// these logs are sound.
pub fn the_plain_world_is_that_of_settled_logs()
    // The plain world's nodes are those of the settled logs.
    ensures nodes { (g : GeometryNumbers) (start : World) (records : List Record) (events : List Event)
        → IsStart g start records → (handle : Handle)
        → settled_nodes (after start events).shared handle
        ≡ (plain_after start events (plain_of start)).nodes handle }
    // The plain world's tree is that of the settled logs.
    ensures tree { (g : GeometryNumbers) (start : World) (records : List Record) (events : List Event)
        → IsStart g start records → tree_of (after start events) ≡ plain_tree
        (length (after start events).shared.cells) (plain_after start events (plain_of start)) }
    // Settled logs are sound.
    ensures sound { (g : GeometryNumbers) (start : World) (records : List Record) (events : List Event)
        → IsStart g start records → AreSound (after start events).shared }
{}

/// A step that refuses a call does so for a fault whose cause is there at that step: the plain world refuses the call
/// at the look, the check or the visit; it does not, and no number was free; the last list was asked and is short; no
/// further commit number is there, and then it always refuses; no round of looks is left; or memory that the step asks
/// for was not granted. A call is overtaken at its check alone, where a name is bound anew. A refused call has only its
/// last steps left, which lead to that refusal ([`what_commits_is_answered`]). The tests are those over the nodes of
/// the cells, whatever the state; from any start on and whatever events come, they are those over the settled nodes,
/// which the plain world has.
pub fn refusals_have_causes()
    // A step refuses a call only for a fault whose cause is there then.
    // A cause is a test of the look, the check or the visit, over the nodes of the cells.
    // A cause is that the last list was asked and is short.
    // A cause is that memory was not granted.
    // A call is overtaken at its check alone, where a name is bound anew.
    // A refused call has only its last steps left.
    ensures causes { (block actor : ℕ) (granted : Bool) (s : Shared) (h : HandState) (r : Running)
        → r.ending ≡ Answers
        → RefusesFor (IsCause r.next block actor granted (copies s) s h r)
        (MayBeOvertaken r.next (copies s) r)
        (turn block actor granted s h r) }
    // In worlds after a new one the nodes of such a test are the settled ones, which the plain world has.
    ensures settled { (g : GeometryNumbers) (start : World) (records : List Record)
        (events : List Event) (actor : ℕ) (granted : Bool) (r : Running) → IsStart g start records
        → (actor_at (after start events) actor).running ≡ Some r → r.ending ≡ Answers → RefusesFor
        (IsCause r.next (after start events).numbers.block actor granted
        (node_in (settled_nodes (after start events).shared)) (after start events).shared
        (actor_at (after start events) actor).hand r)
        (MayBeOvertaken r.next (node_in (settled_nodes (after start events).shared)) r)
        (turn (after start events).numbers.block actor granted (after start events).shared
        (actor_at (after start events) actor).hand r) }
    // A cause is that a call passes without a number, since none was free at its number step.
    ensures number { (block actor : ℕ) (granted : Bool) (s : Shared) (h : HandState) (r : Running)
        → FindsNone s (kind_turn Number block actor granted s h r) }
    // A cause is that no round of looks is left.
    ensures contended { (place block actor : ℕ) (granted : Bool) (s : Shared) (h : HandState)
        (r : Running) → r.ending ≡ BoundAnew
        → RefusesFor (IsRoundless r) (Unit {0})
        (kind_turn (Unlock place) block actor granted s h r) }
    // A cause is that no further commit number is there; each enter refuses then.
    ensures limit { (block actor : ℕ) (granted : Bool) (s : Shared) (h : HandState) (r : Running)
        → s.holder ≡ None → NUMBER ≤ s.book.commit
        → kind_turn Enter block actor granted s h r ≡ refuse CommitLimit s h r }
{}

/// A taking that falls short has asked every list: where a step that asks a list refuses its call, whatever events came
/// from any start on, its taking has asked each CPU's free list once, from the actor's own on; each gave all that it
/// had to the hand, and the sum is short of what the taking wants.
pub fn short_takings_have_asked_every_list()
    // A step that takes refuses its call only where every CPU's free list was asked, each once.
    // A taking asks the lists from the actor's own on.
    // Each list gave all that it had to the hand, and the sum is short of what the taking wants.
    ensures { (g : GeometryNumbers) (start : World) (records : List Record) (events : List Event)
        (actor : ℕ) (granted : Bool) (r : Running) → IsStart g start records
        → (actor_at (after start events) actor).running ≡ Some r → asks_list r.next ≡ true
        → RefusesFor (IsShortInAll g.cpus actor
        (taking_of (Some r) (after start events) actor granted
        (taking_after actor start events no_taking))) ⊥ (turn (after start events).numbers.block
        actor granted (after start events).shared (actor_at (after start events) actor).hand r) }
{}

/// A step that refuses its call leaves the book (the number of the last commit, the epoch, journals, snapshots and
/// records) and all cells as they were, also an enter, which is lent the book; and so does each further step of a call
/// that is not to be answered, but that the last step of a show takes its pin off. A call on snapshots that is refused
/// has its last steps left alone; so it is in every world that events lead to.
pub fn refused_calls_leave_books_and_cells()
    // A step that refuses its call leaves the book and all cells as they were.
    // An enter that refuses its call leaves the book, which it is lent.
    // Each further step of a call that is not to be answered leaves the book and all cells.
    // The last step of a show takes its pin off, and leaves the book otherwise.
    ensures kept { (w : World) (actor : ℕ) (granted : Bool) (r : Running) → IsKept w
        → (actor_at w actor).running ≡ Some r → GoesOn r.next r.ending
        → LeavesBooks r.next w.shared
        (turn w.numbers.block actor granted w.shared (actor_at w actor).hand r) }
    ensures reached { (g : GeometryNumbers) (start : World) (records : List Record)
        (events : List Event) (actor : ℕ) (granted : Bool) (r : Running) → IsStart g start records
        → (actor_at (after start events) actor).running ≡ Some r → LeavesBooks r.next
        (after start events).shared (turn (after start events).numbers.block actor granted
        (after start events).shared (actor_at (after start events) actor).hand r) }
{}

/// A call is contended only after eight checks that each found a name bound anew: a started call has eight such checks
/// to fail, each of them takes one, and no other event does. Where a call was overtaken and no round is left,
/// eight have failed.
pub fn contended_calls_have_failed_eight_checks()
    // A call is contended only after eight checks that each found a name bound anew.
    ensures starts { (w : World) (actor : ℕ) (c : Call) → (step w (Start actor c)).reply ≡ Started
        → HasRounds 8 0 (actor_at (step w (Start actor c)).world actor).running }
    ensures fails { (events : List Event) (w : World) (actor all failed : ℕ)
        → AreNoStarts actor events → HasRounds all failed (actor_at w actor).running
        → HasRounds all (failed + failed_checks actor w events)
        (actor_at (after w events) actor).running }
    ensures eight { (w : World) (actor : ℕ) (c : Call) (events : List Event) (r : Running)
        → (step w (Start actor c)).reply ≡ Started → AreNoStarts actor events
        → (actor_at (after (step w (Start actor c)).world events) actor).running ≡ Some r
        → r.ending ≡ BoundAnew → r.rounds ≡ 0
        → 8 ≤ failed_checks actor (step w (Start actor c)).world events }
{}

/// A call is refused for want of a number only after its number step found none free: one that has none at its check
/// has met such a step since it was started.
pub fn calls_without_a_number_found_none()
    // A call that makes an inode and has no number at its check has met a step that found none free.
    ensures { (g : GeometryNumbers) (start : World) (records : List Record)
        (before events : List Event) (actor : ℕ) (c : Call) (r : Running)
        → IsStart g start records → (step (after start before) (Start actor c)).reply ≡ Started
        → AreNoStarts actor events
        → let w = after start (before ++ Start actor c ∷ events) in (actor_at w actor).running
        ≡ Some r → r.next ≡ Check
        → is_numbered (beginning r.call) (actor_at w actor).hand.ino ≡ false
        → met_none actor (step (after start before) (Start actor c)).world events ≡ true }
{}

/// A new inode's handle is new, whatever events came from any start on: at the commit point of a call that makes an
/// inode no node is under its handle, which is not the root's, nor one that led to a node at the start, nor that of a
/// commit point since. Generations rise whenever a number comes back.
pub fn made_handles_are_new()
    // At the commit point of a call that makes an inode no node is under its handle.
    ensures no_node { (g : GeometryNumbers) (start : World) (records : List Record)
        (events : List Event) (actor : ℕ) (granted : Bool) (r : Running) → IsStart g start records
        → actor < length (after start events).actors
        → (actor_at (after start events) actor).running ≡ Some r
        → plain_change_of (after start events) (Go actor granted) ≡ Commits
        → makes_inode (beginning r.call) ≡ true
        → settled_nodes (after start events).shared r.made ≡ None }
    // The handle of a new inode led to no node at the start.
    ensures start { (g : GeometryNumbers) (start : World) (records : List Record)
        (events : List Event) (actor : ℕ) (granted : Bool) (r : Running) → IsStart g start records
        → actor < length (after start events).actors
        → (actor_at (after start events) actor).running ≡ Some r
        → plain_change_of (after start events) (Go actor granted) ≡ Commits
        → makes_inode (beginning r.call) ≡ true → settled_nodes start.shared r.made ≡ None }
    // The handle of a new inode is neither the root's nor that of an earlier commit point.
    // Generations rise whenever a number comes back.
    ensures never { (g : GeometryNumbers) (start : World) (records : List Record)
        (events : List Event) (actor : ℕ) (granted : Bool) (r : Running) → IsStart g start records
        → actor < length (after start events).actors
        → (actor_at (after start events) actor).running ≡ Some r
        → plain_change_of (after start events) (Go actor granted) ≡ Commits
        → makes_inode (beginning r.call) ≡ true
        → has_handle (root ∷ handles_made start events) r.made ≡ false }
{}

/// A visit reads settled nodes, since it waits while its slot is held: what it tests and answers is the same there, so
/// that its answer is the plain world's.
pub fn visits_read_settled_nodes()
    // A visit waits while its inode slot is held, so what it reads is settled.
    ensures reads { (w : World) (taken : Allocation) (c : Call) → AreGrown w → beginning c ≡ Visits
        → owner_at w.shared (handle_at (handles nothing_looked c) 0).ino ≡ None
        → SameCall w.numbers.block (settled_nodes w.shared) (nodes w.shared) taken c }
    // The answer of a visit is the plain world's.
    ensures answers { (w : World) (actor : ℕ) (granted : Bool) (r : Running) (told : Answer)
        → AreGrown w → actor < length w.actors → (actor_at w actor).running ≡ Some r
        → r.next ≡ Visit → beginning r.call ≡ Visits → (step w (Go actor granted)).reply ≡ Done told
        → told ≡ answer (settled_nodes w.shared) r.made r.call }
{}

/// A call on files and directories is answered only where that was decided, and once: whatever events come from a new
/// world on, a call that is Done has made its commit since it was started, or is a visit, or had nothing to change at
/// its check, and at that event the plain world does not refuse it (at a commit point by
/// [`plans_fit_at_commit_points`]); it is told what the plain world answers there, on the settled nodes. Of a call that
/// is refused nothing was decided. And what commits has something to change.
/// A call is decided where it commits, is a visit, or has nothing to change at its check.
pub fn calls_are_decided_once()
    // A call on files and directories is `Done` only where that was decided, once since its start.
    // The plain world does not refuse a call where it is decided, and gives the answer that the call is told.
    ensures done { (g : GeometryNumbers) (start : World) (records : List Record)
        (events : List Event) (actor : ℕ) (granted : Bool) (r : Running) (told : Answer)
        → IsStart g start records → (actor_at (after start events) actor).running ≡ Some r
        → is_snapshot_or_cleaner r.call ≡ false
        → (step (after start events) (Go actor granted)).reply ≡ Done told
        → decided actor start (events ++ Go actor granted ∷ []) [] ≡ told ∷ [] }
    // Of a refused call nothing was decided.
    ensures refused { (g : GeometryNumbers) (start : World) (records : List Record)
        (events : List Event) (actor : ℕ) (granted : Bool) (r : Running) (fault : Fault)
        → IsStart g start records → (actor_at (after start events) actor).running ≡ Some r
        → (step (after start events) (Go actor granted)).reply ≡ Refused fault
        → decided actor start (events ++ Go actor granted ∷ []) [] ≡ [] }
    // What commits has something to change.
    ensures something { (g : GeometryNumbers) (start : World) (records : List Record)
        (events : List Event) (actor : ℕ) (granted : Bool) (r : Running) → IsStart g start records
        → actor < length (after start events).actors
        → (actor_at (after start events) actor).running ≡ Some r
        → plain_change_of (after start events) (Go actor granted) ≡ Commits
        → 0 < length (effect (node_in (settled_nodes (after start events).shared)) r.made r.call) }
{}
