//! The entries of a commit, appended past the tails.

ghost use Rattle.std.specs.Prelude.{◌≡◌, ℕ, List, ◌+◌, ◌*◌, ◌<◌, ◌≤◌, ◌^◌, drop, length, take, []};
ghost use Rattle.nv_entry.specs.declared.item.Item.{Item as ItemValue};
ghost use Rattle.nv_log.specs.Chain.{room_of};
ghost use Rattle.nv_cell.specs.Room.{IsReadyFor};
ghost use Rattle.nv_calls.specs.Cells.{state_at, value_at, with_value};
ghost use Rattle.nv_calls.specs.Steps.{HaveBlocks, MayFollow, numbers_in, stamped_entries, stamped_entry, with_entries, with_new_pages, without_front};

use crate::{Cells, Stamp};
use nv_alloc::BlockQueue;
use nv_base::EntryId;
use nv_entry::{Entry, Item};
use std::collections::VecDeque;

/// Moves pages from the front of a queue to the log of a cell. What the cell is ready for, it stays ready for.
pub(crate) fn add_pages<C: Cells>(cells: &mut C, k: usize, count: usize, pages: &mut BlockQueue)
    requires within { k < length (C.cells cells.old) }
    requires reserved { count ≤ (value_at (C.cells cells.old) k).room.pages }
    requires there { count ≤ length pages.old.blocks }
    requires size { pages.old.size ≡ (state_at (C.cells cells.old) k).block }
    ensures cells { C.cells cells.new ≡ with_value (C.cells cells.old) k
        (with_new_pages (take count pages.old.blocks) (value_at (C.cells cells.old) k)) }
    ensures ready { (items : List ItemValue) → IsReadyFor items (value_at (C.cells cells.old) k)
        → IsReadyFor items (value_at (C.cells cells.new) k) }
    ensures room { room_of (state_at (C.cells cells.new) k).chain
        ≡ room_of (state_at (C.cells cells.old) k).chain
        + count * (state_at (C.cells cells.old) k).chain.page }
    ensures pages { pages.new ≡ without_front count pages.old }
    ensures frame { C.frame cells.new ≡ C.frame cells.old }
{
    for _added in 0..count {
        // Each block of the queue has its size.
        pages.keeps_its_size();
        let Some(block) = pages.take_next() else {
            unreachable!()
        };
        // The log is one, so that a page gives as much room as it holds.
        cells.cell(k).holds_together();
        cells.add_page(k, block);
    }
}

/// Appends entries with these items to the log of a cell, from a place in their commit on, with the blocks of their
/// pages from the front of a queue. The pages that are there take them.
pub(crate) fn append_to_pages<C: Cells>(
    cells: &mut C,
    k: usize,
    stamp: &Stamp,
    place: u32,
    left: &mut VecDeque<Item>,
    blocks: &mut BlockQueue,
)
    requires within { k < length (C.cells cells.old) }
    requires room { length left.old.items ≤ room_of (state_at (C.cells cells.old) k).chain }
    requires ready { IsReadyFor left.old.items (value_at (C.cells cells.old) k) }
    requires follow { MayFollow stamp.now place (value_at (C.cells cells.old) k) }
    requires blocks { HaveBlocks left.old.items (state_at (C.cells cells.old) k).block blocks.old }
    requires few { place + length left.old.items < 2 ^ 32 }
    ensures cells { C.cells cells.new ≡ with_value (C.cells cells.old) k
        (with_entries (stamped_entries stamp.now place left.old.items) blocks.old.blocks
        (value_at (C.cells cells.old) k)) }
    ensures ready { IsReadyFor [] (value_at (C.cells cells.new) k) }
    ensures follow { MayFollow stamp.now (place + length left.old.items)
        (value_at (C.cells cells.new) k) }
    ensures queue { blocks.new ≡ without_front (length (numbers_in left.old.items)) blocks.old }
    ensures left { left.new.items ≡ [] }
    ensures frame { C.frame cells.new ≡ C.frame cells.old }
{
    let mut next = place;
    for _done in 0..left.len() {
        let Some(item) = left.pop_front() else {
            unreachable!()
        };
        // The log is one, so that the entry comes next in it.
        cells.cell(k).holds_together();
        cells.append(k, entry_of(stamp, next, item), blocks);
        next += 1;
    }
}

/// The entry that an item becomes at a place in a commit.
fn entry_of(stamp: &Stamp, place: u32, item: Item) -> Entry
    ensures { result ≡ stamped_entry stamp.now place item }
{
    let commit = stamp.commit;
    let id = EntryId { commit, place };
    let epoch = stamp.epoch;
    Entry { id, epoch, item }
}
