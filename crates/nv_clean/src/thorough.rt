//! Thorough cleaning: the entries that stay move to as few fresh pages as they fill.

ghost use Rattle.std.specs.Prelude.{◌≡◌, ◌==◌, ◌*◌, IfOk, length, nat_lt, false, true};
ghost use Rattle.nv_base.specs.Refusals.{FailsOnly};
ghost use Rattle.nv_base.specs.Memory.{out_of_memory};
ghost use Rattle.nv_cell.specs.Cell.{log_of};
ghost use Rattle.nv_cell.specs.Readers.{has_killed};
ghost use Rattle.nv_cell.specs.Removal.{KeepsTheLast};
ghost use Rattle.nv_clean.specs.Cleaned.{HasPages, KeepsValues, LeavesNone, NodesStay, answer_of, room_with_entries, with_chain, with_entries};
ghost use Rattle.nv_clean.specs.Plans.{wanted_of};
ghost use Rattle.nv_entry.specs.Clean.{select};

use crate::walk::entries_staying;
use crate::{Cleaned, Wanted};
use nv_alloc::Hand;
use nv_base::Fault;
use nv_cell::InodeCell;
use std::alloc::Global;

/// Walks the log of a cell: which of its entries a thorough cleaning leaves. The time is linear in the log's entries and
/// parts, on average. Takes a byte an entry for the flags that it gives, and while it runs a place in a set for each name
/// that stays: `OutOfMemory` where there is none.
/// Its time is linear in the log's entries and parts, on average.
pub fn wanted(alloc: Global, cell: &InodeCell) -> Result<Wanted, Fault>
    // An entry stays that anything keeps, by the marks of its parts.
    // The last entry stays.
    // An entry stays that hides an earlier one that stays.
    // An entry goes that hides only earlier ones that go.
    // An Unbind hides what an earlier one unbinds.
    // A cut hides the cuts and writes that cover a page behind it.
    // How many entries stay is told, and how many log pages these fill.
    ensures ok { IfOk result (λ wanted. wanted ≡ wanted_of cell.now.state) }
    // It fails for want of memory alone.
    ensures err { FailsOnly out_of_memory result }
{
    // The chain is one, so that each flag is of an entry that counts.
    cell.holds_together();
    let stays = entries_staying(alloc, cell)?;
    let entries = cell.log().staying(&stays);
    Ok(Wanted {
        stays,
        entries,
        pages: entries.div_ceil(cell.entries_per_page()),
        dropped: cell.len().saturating_sub(entries),
    })
}

/// Whether a thorough cleaning is worth its pages: less than half of so many entries stay.
pub fn prefers_thorough(wanted: &Wanted, entries: usize) -> bool
    // Thorough goes first where less than half of the entries stay; equal halves are fast.
    ensures { result ≡ nat_lt (2 * wanted.now.entries) entries }
{
    wanted.entries < entries.saturating_sub(wanted.entries)
}

/// Leaves the entries of the log that stay, and moves them to fresh pages, which take the place of the old ones: the hand
/// has as many log pages as these fill, and no chain; it gets the old pages as a chain. Where all stay nothing changes.
/// What is to stay was found by [`wanted`] in the cell as it stands; all its entries are published, and no part of it is
/// killed and not yet retired.
///
/// The node stays, now and at each epoch that something is kept for, and so does what the next entry has to follow. The
/// time is linear in the log's entries and parts, and no memory is taken.
/// It takes no memory.
pub fn thorough_on(cell: &mut InodeCell, wanted: Wanted, hand: &mut Hand) -> Cleaned
    requires published { cell.old.state.chain.tail ≡ length cell.old.state.chain.entries }
    requires retired { has_killed cell.old.state ≡ false }
    // Callers hand on what a walk of this cell found as it stands.
    requires walk { wanted ≡ wanted_of cell.old.state }
    requires pages { (wanted.dropped == 0) ≡ false → HasPages wanted hand.old }
    requires size { hand.old.pages.size ≡ cell.old.state.block }
    // The entries that stay stand in order.
    // They stand on the hand's log pages.
    // Where all stay nothing changes.
    ensures cell { cell.new.state ≡ with_entries wanted hand.old.pages.blocks cell.old.state }
    ensures room { cell.new.room ≡ room_with_entries wanted cell.old.room }
    // The hand gets the old log pages as a chain.
    ensures hand { hand.new ≡ with_chain wanted cell.old.state hand.old }
    // How many entries and log pages the log lost is told.
    ensures answer { result ≡ answer_of true cell.old.state cell.new.state }
    ensures log { log_of cell.new.state ≡ select wanted.stays (log_of cell.old.state) }
    // Nothing droppable is left, by whatever keeps just what the marks keep.
    ensures none { LeavesNone cell.old.state cell.new.state }
    // What is read stays, by whatever keeps just what the marks keep.
    ensures values { KeepsValues cell.old.state cell.new.state }
    // The node stays, now and at each epoch of which every pair is there.
    ensures nodes { NodesStay cell.old.state cell.new.state }
    // The last entry stays, and what the inode tells of itself.
    ensures last { KeepsTheLast cell.old.state cell.new.state }
{
    let entries = cell.len();
    let pages = cell.log().blocks().len();
    // The marks are those of the parts, so that what the walk found is what goes.
    cell.holds_together();
    leave(cell, &wanted, hand);
    Cleaned::since(true, entries, pages, cell)
}

/// Moves the entries that stay to the log pages of the hand, which gets the old ones as a chain. Where all stay nothing
/// changes.
fn leave(cell: &mut InodeCell, wanted: &Wanted, hand: &mut Hand)
    requires published { cell.old.state.chain.tail ≡ length cell.old.state.chain.entries }
    requires walk { wanted.now ≡ wanted_of cell.old.state }
    requires pages { (wanted.now.dropped == 0) ≡ false → HasPages wanted.now hand.old }
    requires size { hand.old.pages.size ≡ cell.old.state.block }
    ensures cell { cell.new.state
        ≡ with_entries wanted.now hand.old.pages.blocks cell.old.state }
    ensures log { log_of cell.new.state ≡ select wanted.now.stays (log_of cell.old.state) }
    ensures last { KeepsTheLast cell.old.state cell.new.state }
    ensures room { cell.new.room ≡ room_with_entries wanted.now cell.old.room }
    ensures hand { hand.new ≡ with_chain wanted.now cell.old.state hand.old }
{
    // What may go is told by the marks of the parts, and each page has the size that the queue says.
    cell.holds_together();
    hand.pages.keeps_its_size();
    if wanted.is_all() {
        return;
    }
    let pages = hand.pages.take_all();
    let old = cell.compact(&wanted.stays, pages);
    hand.chain.put(old);
}
