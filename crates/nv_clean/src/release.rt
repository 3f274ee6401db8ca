//! A deferred record is released.

ghost use Rattle.std.specs.Prelude.{◌≡◌, ◌<◌, Some, length, true};
ghost use Rattle.nv_calls.specs.Retired.{CanTakeGone};
ghost use Rattle.nv_calls.specs.Retiring.{erased, hand_with, name_of, released, released_blocks, with_back};
ghost use Rattle.nv_cell.specs.Cell.{log_of, mark_named};
ghost use Rattle.nv_cell.specs.Readers.{is_gone};
ghost use Rattle.nv_cell.specs.declared.mark.Mark.TheVariants.{Kept};

use nv_alloc::Hand;
use nv_book::Record;
use nv_calls::{LastCell, erase_gone};
use nv_cell::InodeCell;
use nv_entry::PartId;

/// Puts the part of a record out, and its block to the hand. An inode that is gone and keeps nothing more is erased,
/// and its chain and number go to the hand. The time grows with the logarithm of the entries and pages. An erasing takes
/// time linear in the entries. Takes no memory.
/// It takes no memory.
pub fn release_on(cell: &mut InodeCell, picked: Record, hand: &mut Hand)
    requires kept { mark_named cell.old.state (name_of picked) ≡ Some Kept }
    requires room { 0 < hand.old.data.room }
    requires size { hand.old.data.size ≡ cell.old.state.block }
    requires settled { cell.old.state.chain.tail ≡ length cell.old.state.chain.entries }
    requires gone { is_gone (log_of cell.old.state) ≡ true → CanTakeGone hand.old cell.old.state }
    // The part of a record goes out, also one that has no block.
    // An inode that is gone and keeps nothing more is erased, and no other.
    ensures cell { cell.new.state ≡ erased (released picked cell.old.state) }
    // Its block goes into the hand.
    // Its chain goes into the hand, and its number unless the slot is withheld.
    ensures hand { hand.new ≡ hand_with picked.ino (released picked cell.old.state)
        (record hand.old {
          «data» = with_back (released_blocks picked cell.old.state) hand.old.data;
        }) }
{
    let part = PartId {
        entry: picked.entry,
        part: picked.part,
    };
    // Each block that the cell has is of the size that it says.
    cell.holds_together();
    if let Some(block) = cell.release(part) {
        hand.data.put(block);
    }
    let mut lent = LastCell {
        ino: picked.ino,
        cell,
    };
    erase_gone(&mut lent, 0, hand);
}
