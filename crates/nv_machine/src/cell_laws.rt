//! Laws of the machine of steps on the numbers that a cell counts: its slot's generation, and its version.

ghost use Rattle.std.specs.Prelude.{◌≡◌, ◌+◌, ◌<◌, ◌≤◌, ℕ, Bool, List, Some, length, true};
ghost use Rattle.nv_alloc.specs.Numbers.{has};
ghost use Rattle.nv_base.specs.Limits.{IsWithinLimits};
ghost use Rattle.nv_base.specs.declared.geometry.GeometryNumbers.{GeometryNumbers};
ghost use Rattle.nv_base.specs.declared.limits.TheConstants.{NUMBER};
ghost use Rattle.nv_book.specs.declared.record.Record.{Record};
ghost use Rattle.nv_machine.specs.Erasings.{erasings};
ghost use Rattle.nv_machine.specs.FitsNow.{is_checked};
ghost use Rattle.nv_machine.specs.Format.{formatted};
ghost use Rattle.nv_machine.specs.Hands.{makes_inode};
ghost use Rattle.nv_machine.specs.Locks.{commits_at};
ghost use Rattle.nv_machine.specs.PlainRun.{Commits, plain_change_of};
ghost use Rattle.nv_cell.specs.Readers.{has_inode};
ghost use Rattle.nv_machine.specs.Reads.{slot_at, written_slots};
ghost use Rattle.nv_machine.specs.Sequence.{beginning};
ghost use Rattle.nv_machine.specs.Starts.{IsStart};
ghost use Rattle.nv_machine.specs.Step.{after};
ghost use Rattle.nv_machine.specs.Versions.{to_publish};
ghost use Rattle.nv_machine.specs.World.{Event, Go, Publish, Running, World, actor_at, cell_at};

/// No slot that has an inode is of the last generation, and none whose number is in the pool or in a hand: the number
/// of a slot of the last generation is withheld. So neither is any that a call has locked, from its check to its commit
/// point, nor any that it writes.
pub fn generations_are_left()
    // No inode slot that has an inode is of the last generation.
    ensures inodes { (g : GeometryNumbers) (start : World) (records : List Record)
        (events : List Event) (ino : ℕ) → IsStart g start records
        → has_inode (cell_at (after start events).shared ino) ≡ true
        → (cell_at (after start events).shared ino).generation < NUMBER }
    // No inode slot of the last generation has its number in the pool or in a hand.
    ensures pool { (g : GeometryNumbers) (start : World) (records : List Record)
        (events : List Event) (ino : ℕ) → IsStart g start records
        → has (after start events).shared.pool.numbers ino ≡ true
        → (cell_at (after start events).shared ino).generation < NUMBER }
    ensures hands { (g : GeometryNumbers) (start : World) (records : List Record)
        (events : List Event) (actor ino : ℕ) → IsStart g start records
        → (actor_at (after start events) actor).hand.ino ≡ Some ino
        → (cell_at (after start events).shared ino).generation < NUMBER }
    // No inode slot that a call has locked from its check to its commit point is of the last generation.
    ensures calls { (g : GeometryNumbers) (start : World) (records : List Record)
        (events : List Event) (actor ino : ℕ) (r : Running) → IsStart g start records
        → (actor_at (after start events) actor).running ≡ Some r → is_checked r.next ≡ true
        → has r.slots ino ≡ true → (cell_at (after start events).shared ino).generation < NUMBER }
    ensures written { (g : GeometryNumbers) (start : World) (records : List Record)
        (events : List Event) (actor place : ℕ) (r : Running) → IsStart g start records
        → (actor_at (after start events) actor).running ≡ Some r → is_checked r.next ≡ true
        → place < length (written_slots r)
        → (cell_at (after start events).shared (slot_at (written_slots r) place)).generation
        < NUMBER }
{}

/// A slot's generation counts how often its inode was erased: each erasing raises it by one, and nothing else changes
/// it. In a new world each slot is of generation 1. So the handle of the first inode in a slot is of generation 1, and
/// that of each later one of the next.
pub fn generations_count_erasings()
    // Each erasing raises an inode slot's generation by one, and nothing else changes it.
    ensures counted { (g : GeometryNumbers) (start : World) (records : List Record)
        (events : List Event) (ino : ℕ) → IsStart g start records
        → (cell_at (after start events).shared ino).generation
        ≡ (cell_at start.shared ino).generation + erasings ino start events }
    // In a new world each inode slot is of generation 1.
    ensures new { (g : GeometryNumbers) (events : List Event) (ino : ℕ) → IsWithinLimits g
        → ino < g.inodes → (cell_at (after (formatted g) events).shared ino).generation
        ≡ 1 + erasings ino (formatted g) events }
    // A new inode's handle is of generation 1, and one more for each erasing of its slot.
    ensures made { (g : GeometryNumbers) (events : List Event) (actor : ℕ) (granted : Bool)
        (r : Running) → IsWithinLimits g → actor < length (after (formatted g) events).actors
        → (actor_at (after (formatted g) events) actor).running ≡ Some r
        → plain_change_of (after (formatted g) events) (Go actor granted) ≡ Commits
        → makes_inode (beginning r.call) ≡ true
        → r.made.generation ≡ 1 + erasings r.made.ino (formatted g) events }
{}

/// No cell has seen more commits than were entered, of which there are no more than [`NUMBER`]. For a commit counts
/// one more in each slot that it publishes, once: a slot that it has yet to publish has not seen it, and so has not
/// had the last version.
pub fn versions_are_left()
    // No cell has seen more commits than were entered.
    ensures cells { (g : GeometryNumbers) (start : World) (records : List Record)
        (events : List Event) (ino : ℕ) → IsStart g start records
        → (cell_at (after start events).shared ino).version
        ≤ (after start events).shared.book.commit }
    // At most 2 to the power of 62 commits were entered.
    ensures commits { (g : GeometryNumbers) (start : World) (records : List Record) (events : List Event)
        → IsStart g start records → (after start events).shared.book.commit ≤ NUMBER }
    // An inode slot that a commit has yet to publish has not seen it, and so has not had the last version.
    ensures unseen { (g : GeometryNumbers) (start : World) (records : List Record)
        (events : List Event) (actor ino : ℕ) (r : Running) → IsStart g start records
        → (actor_at (after start events) actor).running ≡ Some r → commits_at r.next ≡ true
        → has (to_publish r.next (written_slots r)) ino ≡ true
        → (cell_at (after start events).shared ino).version < r.commit }
    ensures publish { (g : GeometryNumbers) (start : World) (records : List Record)
        (events : List Event) (actor place : ℕ) (r : Running) → IsStart g start records
        → (actor_at (after start events) actor).running ≡ Some r → r.next ≡ Publish place
        → (cell_at (after start events).shared (slot_at (written_slots r) place)).version < NUMBER }
{}
