//! What cells that were judged give of a world at rest: laws, each the contract of a function that
//! does nothing.

ghost use Rattle.std.specs.Prelude.{ℕ, ◌<◌, length};
ghost use Rattle.std.specs.List.{Contains};
ghost use Rattle.nv_alloc.specs.Numbers.{IsEachOnce};
ghost use Rattle.nv_audit.specs.Nodes.{AreTrees};
ghost use Rattle.nv_audit.specs.Sound.{EndsAtSize};
ghost use Rattle.nv_calls.specs.Plain.{node_in};
ghost use Rattle.nv_cell.specs.Cell.{IsCell, log_of};
ghost use Rattle.nv_cell.specs.Shape.{IsLeftShaped};
ghost use Rattle.nv_epoch.specs.SnapList.{ids};
ghost use Rattle.nv_machine.specs.Directories.{AreTree};
ghost use Rattle.nv_machine.specs.Effects.{AreSound};
ghost use Rattle.nv_machine.specs.Kept.{AreClosed};
ghost use Rattle.nv_machine.specs.Numbers.{all_blocks};
ghost use Rattle.nv_machine.specs.Settled.{settled_copies, settled_nodes};
ghost use Rattle.nv_machine.specs.Shapes.{AreShaped};
ghost use Rattle.nv_machine.specs.World.{Shared, World, cell_at};

/// Where no journal is open, and the nodes of the cells form trees now and at each living snapshot,
/// so do the settled nodes and the copies of each snapshot.
pub fn judged_trees_are_trees()
    // Where the nodes of cells form trees by slots and no journal is open, so do the settled nodes and the copies.
    ensures now { (s : Shared) → AreClosed s.book.journals → AreTrees (ids s.book.snaps) s.cells
        → AreTree (node_in (settled_nodes s)) }
    ensures at { (s : Shared) (snapshot : ℕ) → AreClosed s.book.journals
        → AreTrees (ids s.book.snaps) s.cells → Contains (ids s.book.snaps) snapshot
        → AreTree (settled_copies s snapshot) }
{}

/// Where no journal is open and the log of each cell is of its shape, so are the settled logs.
pub fn judged_logs_are_shaped()
    // Where the log of each cell is of its shape and no journal is open, the settled logs are.
    ensures { (block : ℕ) (s : Shared) → AreClosed s.book.journals
        → ((ino : ℕ) → ino < length s.cells → IsLeftShaped block (log_of (cell_at s ino)))
        → AreShaped block s }
{}

/// Where beside it each block number stands once and the file of each cell ends at its size, they
/// are sound.
pub fn judged_logs_are_sound()
    // Where beside it each block stands once and each file ends at its size, the settled logs are sound.
    ensures { (many : ℕ) (w : World) → AreClosed w.shared.book.journals
        → IsEachOnce many (all_blocks w)
        → ((ino : ℕ) → ino < length w.shared.cells → IsCell (cell_at w.shared ino))
        → ((ino : ℕ) → ino < length w.shared.cells
        → IsLeftShaped (cell_at w.shared ino).block (log_of (cell_at w.shared ino)))
        → ((ino : ℕ) → ino < length w.shared.cells → EndsAtSize (cell_at w.shared ino))
        → AreSound w.shared }
{}
