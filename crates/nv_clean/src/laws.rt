//! Laws of cleanings and releases, each the contract of a function that does nothing.

ghost use Rattle.std.specs.Prelude.{◌≡◌, ◌+◌, ◌==◌, false, length, true};
ghost use Rattle.nv_alloc.specs.Hand.{blocks_of};
ghost use Rattle.nv_alloc.specs.declared.hand.Hand.{Hand};
ghost use Rattle.nv_book.specs.declared.record.Record.{Record};
ghost use Rattle.nv_calls.specs.Retired.{CanTakeGone};
ghost use Rattle.nv_calls.specs.Retiring.{erased, hand_with, released, released_blocks, with_back};
ghost use Rattle.nv_cell.specs.Cell.{CellState, IsCell, block_total, log_of};
ghost use Rattle.nv_cell.specs.Readers.{is_gone};
ghost use Rattle.nv_clean.specs.Cleaned.{HasPages, with_chain, with_entries, with_gone, with_pages_unlinked};
ghost use Rattle.nv_clean.specs.Plans.{unlinkable_of, wanted_of};

/// A release leaves the cell and the hand together as many blocks as before, also where the inode is erased.
pub fn releases_keep_the_number_of_blocks()
    // A release leaves cell and hand together as many blocks as before.
    // So does one that erases the inode.
    ensures { (cell : CellState) (picked : Record) (hand : Hand) → IsCell cell
        → cell.chain.tail ≡ length cell.chain.entries
        → (is_gone (log_of cell) ≡ true → CanTakeGone hand cell)
        → block_total (erased (released picked cell))
        + length (blocks_of (hand_with picked.ino (released picked cell)
        (record hand { «data» = with_back (released_blocks picked cell) hand.data })))
        ≡ block_total cell + length (blocks_of hand) }
{}

/// A cleaning leaves the cell and the hand together as many blocks as before.
pub fn cleanings_keep_the_number_of_blocks()
    // So does each cleaning.
    ensures fast { (cell : CellState) (hand : Hand) → IsCell cell
        → block_total (with_pages_unlinked (unlinkable_of cell) cell)
        + length (blocks_of (with_gone (unlinkable_of cell) cell hand))
        ≡ block_total cell + length (blocks_of hand) }
    ensures thorough { (cell : CellState) (hand : Hand) → IsCell cell
        → (((wanted_of cell).dropped == 0) ≡ false → HasPages (wanted_of cell) hand)
        → block_total (with_entries (wanted_of cell) hand.pages.blocks cell)
        + length (blocks_of (with_chain (wanted_of cell) cell hand))
        ≡ block_total cell + length (blocks_of hand) }
{}
