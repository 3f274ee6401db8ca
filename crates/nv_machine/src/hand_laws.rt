//! Laws of what is in a hand, and of what a call holds at its check and at a visit, that the code of the steps relies
//! on. Each is the contract of a function that does nothing.

ghost use Rattle.std.specs.Prelude.{◌≡◌, ◌+◌, ◌<◌, ◌≤◌, ℕ, List, [], None, Some, false, length, true};
ghost use Rattle.std.specs.List.{AllByRecursion};
ghost use Rattle.nv_alloc.specs.Block.{BlockValue, numbers_of};
ghost use Rattle.nv_alloc.specs.Numbers.{has, times};
ghost use Rattle.nv_base.specs.declared.geometry.GeometryNumbers.{GeometryNumbers};
ghost use Rattle.nv_base.specs.declared.numbers.Handle.{Handle};
ghost use Rattle.nv_book.specs.declared.record.Record.{Record};
ghost use Rattle.nv_calls.specs.Locked.{handles};
ghost use Rattle.nv_calls.specs.Nodes.{HasBytes};
ghost use Rattle.nv_cell.specs.Cell.{IsCell, log_of};
ghost use Rattle.nv_cell.specs.Pages.{AreBytesOf};
ghost use Rattle.nv_machine.specs.Hands.{HasTakenNone};
ghost use Rattle.nv_machine.specs.Kinds.{blocks_in};
ghost use Rattle.nv_machine.specs.Locks.{commits_at, held_at};
ghost use Rattle.nv_machine.specs.Reads.{bytes_among};
ghost use Rattle.nv_machine.specs.Sequence.{directories};
ghost use Rattle.nv_machine.specs.Starts.{AreIdle, IsStart};
ghost use Rattle.nv_machine.specs.Step.{after, ending_at};
ghost use Rattle.nv_machine.specs.World.{Check, Event, Look, Running, World, actor_at, cell_at, list_at};

/// All blocks in hands are of the device, and none of them is in a free list, or twice in the hand.
pub fn hands_have_blocks_of_the_device()
    // All blocks in hands are of the device.
    ensures below { (g : GeometryNumbers) (start : World) (records : List Record)
        (events : List Event) (actor : ℕ) → IsStart g start records → AllByRecursion
        (λ (b : BlockValue). b.number < g.blocks)
        (blocks_in (actor_at (after start events) actor).hand) }
    // No block of a hand is in a free list, or twice in its hand.
    ensures once { (g : GeometryNumbers) (start : World) (records : List Record)
        (events : List Event) (actor cpu n : ℕ) → IsStart g start records
        → times n (numbers_of (blocks_in (actor_at (after start events) actor).hand)) + times n
        (numbers_of (list_at (after start events).shared cpu).blocks) ≤ 1 }
{}

/// The number in a hand is that of a slot, and is not in the pool.
pub fn hands_have_numbers_of_slots()
    // The number in a hand is that of an inode slot, and is not in the pool.
    ensures { (g : GeometryNumbers) (start : World) (records : List Record) (events : List Event)
        (actor ino : ℕ) → IsStart g start records
        → (actor_at (after start events) actor).hand.ino ≡ Some ino
        → (ino < g.inodes) × (has (after start events).shared.pool.numbers ino ≡ false) }
{}

/// Each block of a cell is the only one of its number there, so that its bytes are those that a search finds.
pub fn cells_have_their_own_bytes()
    // Each block of a cell is the only one of its number there.
    // The bytes of a cell's block are those that a search for its number finds.
    ensures { (g : GeometryNumbers) (start : World) (records : List Record) (events : List Event)
        (ino : ℕ) → IsStart g start records → AreBytesOf (cell_at (after start events).shared ino)
        (bytes_among (cell_at (after start events).shared ino).blocks) }
{}

/// Before its check a call has nothing in its hand but the number of a new inode, whose slot is empty and locked. It
/// holds the slots of all its handles, where these are slots, and outside of a commit none of those that it holds has
/// entries past its tail. A call whose handles are all out of range has no slot: its check refuses it.
pub fn checks_find_their_slots()
    // Before its check a call has nothing in its hand except the number of a new inode.
    ensures none { (g : GeometryNumbers) (start : World) (records : List Record)
        (events : List Event) (actor : ℕ) (r : Running) → IsStart g start records
        → (actor_at (after start events) actor).running ≡ Some r → r.next ≡ Check
        → HasTakenNone (actor_at (after start events) actor).hand r }
    // The inode slot of the number that a call has before its check is empty and locked.
    ensures number { (g : GeometryNumbers) (start : World) (records : List Record)
        (events : List Event) (actor ino : ℕ) (r : Running) → IsStart g start records
        → (actor_at (after start events) actor).running ≡ Some r → r.next ≡ Check
        → (actor_at (after start events) actor).hand.ino ≡ Some ino
        → (ino < length (after start events).shared.cells)
        × (log_of (cell_at (after start events).shared ino) ≡ []) × (has r.slots ino ≡ true) }
    // A call before its check holds the inode slots of all its handles, where these are inode slots.
    ensures handles { (g : GeometryNumbers) (start : World) (records : List Record)
        (events : List Event) (actor : ℕ) (r : Running) → IsStart g start records
        → (actor_at (after start events) actor).running ≡ Some r → r.next ≡ Check → AllByRecursion
        (λ (h : Handle). h.ino < length (after start events).shared.cells → has r.slots h.ino
        ≡ true) (handles r.looked r.call) }
    // A check that does not end its call has an inode slot.
    ensures some { (g : GeometryNumbers) (start : World) (records : List Record)
        (events : List Event) (actor block : ℕ) (r : Running) → IsStart g start records
        → (actor_at (after start events) actor).running ≡ Some r → r.next ≡ Check
        → ending_at block (after start events).shared (actor_at (after start events) actor).hand r
        ≡ None → 0 < length r.slots }
    // Outside of a commit no inode slot that a call holds has entries past its tail.
    ensures tails { (g : GeometryNumbers) (start : World) (records : List Record)
        (events : List Event) (actor ino : ℕ) (r : Running) → IsStart g start records
        → (actor_at (after start events) actor).running ≡ Some r → commits_at r.next ≡ false
        → has (held_at r.next r.slots) ino ≡ true
        → (cell_at (after start events).shared ino).chain.tail
        ≡ length (cell_at (after start events).shared ino).chain.entries }
{}

/// A look that comes next is in one of the directories in which the call's names are looked up.
pub fn looks_are_in_directories()
    // A look that comes next is in one of the directories in which the call's names are looked up.
    ensures { (start : World) (events : List Event) (actor place : ℕ) (r : Running)
        → AreIdle start → (actor_at (after start events) actor).running ≡ Some r
        → r.next ≡ Look place → place < length (directories r.call) }
{}

/// Each slot's cell is a cell, with blocks of the device's size: its chain has its pages, its log is one, each
/// published part has its mark, and each page that is not out its block. The bytes of its blocks are those that a
/// search for their numbers finds.
pub fn cells_are_cells()
    // Each inode slot's cell is a cell: its chain has its pages, and its log is one.
    // Each published part of a cell has its mark, and each page that is not out its block.
    ensures is { (g : GeometryNumbers) (start : World) (records : List Record)
        (events : List Event) (ino : ℕ) → IsStart g start records
        → ino < length (after start events).shared.cells
        → IsCell (cell_at (after start events).shared ino) }
    // A search for the numbers of a cell's blocks finds their bytes.
    ensures own { (g : GeometryNumbers) (start : World) (records : List Record)
        (events : List Event) (ino : ℕ) → IsStart g start records
        → ino < length (after start events).shared.cells → HasBytes
        (bytes_among (cell_at (after start events).shared ino).blocks) g.block
        (cell_at (after start events).shared ino) }
{}
