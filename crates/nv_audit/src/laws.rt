//! Laws of the audit, each the contract of a function that does nothing.

ghost use Rattle.nv_cell.specs.Cell.{CellState, IsCell, log_of, stored_in};
ghost use Rattle.nv_cell.specs.Pages.{AreBytesOf};
ghost use Rattle.nv_cell.specs.Retained.{AreMarksOf};
ghost use Rattle.nv_cell.specs.Shape.{IsLeftShaped};
ghost use Rattle.nv_entry.specs.Sound.{IsSound};
ghost use Rattle.nv_audit.specs.Sound.{EndsAtSize};
ghost use Rattle.nv_epoch.specs.SnapList.{ids};
ghost use Rattle.nv_entry.specs.Held.{Retention};
ghost use Rattle.nv_audit.specs.Counts.{AreCounted};
ghost use Rattle.nv_audit.specs.Lists.{AreFree, blocks_had, used_by, used_of};
ghost use Rattle.nv_audit.specs.Whole.{Agrees, AreFromScratch, Device, HasCounts, HasMarkedCells, HasRecords};
ghost use Rattle.nv_alloc.specs.FreeList.{FreeBlocks};
ghost use Rattle.nv_base.specs.declared.geometry.GeometryNumbers.{GeometryNumbers};
ghost use Rattle.nv_alloc.specs.Block.{numbers_of};
ghost use Rattle.std.specs.Prelude.{◌≡◌, ◌++◌, [], ℕ, List};
ghost use Rattle.std.specs.List.{flat_map};

/// Where the marks of a cell are what a retention says, its counts are those from scratch.
pub fn marks_give_counts()
    // Where the marks are what a retention says, the counts agree.
    ensures { (r : Retention) (cell : CellState) → IsCell cell → AreMarksOf r cell
        → AreCounted r cell }
{}

/// Where they are, the blocks that its inode uses are the pages of its chain and the blocks that
/// the cell has for parts.
pub fn marks_give_used_blocks()
    // Where the marks are what a retention says, an inode uses the blocks that its cell has.
    ensures { (r : Retention) (cell : CellState) → IsCell cell → AreMarksOf r cell
        → used_by r cell ≡ numbers_of cell.chain.blocks ++ blocks_had cell }
{}

/// Where they are in all cells, the blocks in use are those that cells have, and those in hands.
pub fn marks_give_all_used_blocks()
    // Where marks are what a retention says, the used blocks of a device are those of cells and hands.
    ensures { (d : Device) → HasMarkedCells d → used_of d.cells d.book d.in_hands d.blocks
        ≡ flat_map stored_in d.cells ++ d.blocks }
{}

/// Where they are in all cells, the counts of all inodes are those from scratch.
pub fn marks_give_all_counts()
    // Where marks are what a retention says, the counts of a whole device agree.
    ensures { (d : Device) → HasMarkedCells d → HasCounts d }
{}

/// Lists that are told from scratch are free lists.
pub fn lists_from_scratch_are_free()
    // Lists from scratch are free lists as an audit passes them.
    ensures { (g : GeometryNumbers) (lists : List FreeBlocks) (used : List ℕ)
        → AreFromScratch g lists used → AreFree g lists used }
{}

/// Where marks are those of the logs, lists are from scratch by what cells and hands have, and records are those of the
/// logs, the whole device agrees: the audit finds nothing.
pub fn marked_devices_agree()
    // Where marks and records are those of the logs and lists are from scratch, nothing differs.
    ensures { (d : Device) → HasMarkedCells d
        → AreFromScratch d.numbers d.lists (flat_map stored_in d.cells ++ d.blocks)
        → HasRecords d → Agrees d }
{}

/// Where no snapshot lives, nothing is to be recorded.
pub fn without_snapshots_nothing_is_recorded()
    // Where no snapshot lives nothing is to be recorded.
    ensures { (d : Device) → ids d.book.snaps ≡ [] → HasRecords d }
{}

/// A log of its shape whose file ends at its size is sound by the bytes of the cell's blocks: it stores the node that it
/// gives.
pub fn shaped_logs_are_sound()
    // A log of its shape whose file ends at its size stores the node that it gives.
    ensures { (cell : CellState) (bytes : ℕ → List ℕ) → IsCell cell → AreBytesOf cell bytes
        → IsLeftShaped cell.block (log_of cell) → EndsAtSize cell
        → IsSound bytes cell.block (log_of cell) }
{}
