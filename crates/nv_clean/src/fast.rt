//! Fast cleaning: whole log pages leave that nothing needs. It copies nothing.

ghost use Rattle.std.specs.Prelude.{◌≡◌, ◌++◌, ◌+◌, ◌-◌, ◌<◌, ◌≤◌, ◌^◌, IfOk, count_by, length, min, not, false};
ghost use Rattle.nv_base.specs.Refusals.{FailsOnly};
ghost use Rattle.nv_base.specs.Memory.{out_of_memory};
ghost use Rattle.nv_cell.specs.Cell.{log_of};
ghost use Rattle.nv_cell.specs.Readers.{has_killed};
ghost use Rattle.nv_cell.specs.Removal.{KeepsTheLast};
ghost use Rattle.nv_clean.specs.Cleaned.{KeepsValues, NodesStay, answer_of, room_with_pages, with_gone, with_pages_unlinked};
ghost use Rattle.nv_clean.specs.Plans.{unlinkable_of};
ghost use Rattle.nv_entry.specs.Clean.{entries_of, select};
ghost use Rattle.nv_log.specs.Chain.{end_of, gone_of, log_pages, start_of};

use crate::walk::pages_staying;
use crate::{Cleaned, Unlinkable};
use nv_alloc::{BlockQueue, Hand};
use nv_base::Fault;
use nv_cell::InodeCell;
use nv_log::Chain;
use std::alloc::Global;

/// Walks the log of a cell: which of its pages a fast cleaning unlinks. The time is linear in the log's entries and
/// parts, on average. Takes a byte a page for the flags that it gives, and while it runs a place in a set for each name
/// that stays: `OutOfMemory` where there is none.
/// None of the entries of such a page is tried.
/// Its time is linear in the log's entries and parts, on average.
pub fn unlinkable(alloc: Global, cell: &InodeCell) -> Result<Unlinkable, Fault>
    // A log page goes of which each entry may go.
    // A log page without entries stays.
    // What a page that stays has tried counts as there for the next page.
    // A page of which something is kept stays by its counts.
    // How many log pages go is told, and how many entries these have.
    ensures ok { IfOk result (λ unlinkable. unlinkable ≡ unlinkable_of cell.now.state) }
    // It fails for want of memory alone.
    ensures err { FailsOnly out_of_memory result }
{
    let stays = pages_staying(alloc, cell)?;
    let pages = going(&stays);
    let entries = entries_going(cell, &stays);
    Ok(Unlinkable {
        stays,
        pages,
        entries,
    })
}

/// How many pages go, by a flag for each that says whether it stays.
fn going(stays: &[bool]) -> u64
    ensures { result ≡ count_by not stays.now }
{
    let mut pages = 0;
    for stay in stays {
        if !*stay {
            pages += 1;
        }
    }
    pages
}

/// How many published entries the pages have that go, by a flag for each that says whether it stays.
fn entries_going(cell: &InodeCell, stays: &[bool]) -> usize
    requires { length stays.now ≡ length cell.now.state.chain.ends }
    ensures { result ≡ length (entries_of (gone_of stays.now (log_pages cell.now.state.chain))) }
{
    // The chain is one, so that its pages part its entries.
    cell.holds_together();
    let chain = cell.log();
    let mut entries = 0;
    for (k, stay) in stays.iter().enumerate() {
        if !*stay {
            entries += published_on(chain, k);
        }
    }
    entries
}

/// How many published entries a page has.
fn published_on(chain: &Chain, k: usize) -> usize
    ensures value { result ≡ min (end_of chain.now.state k) chain.now.state.tail
        - min (start_of chain.now.state k) chain.now.state.tail }
    ensures fits { min (start_of chain.now.state k) chain.now.state.tail + result < 2 ^ 64 }
{
    let tail = chain.tail();
    chain.page_end(k).min(tail) - chain.page_start(k).min(tail)
}

/// Unlinks the pages of the log that go, and puts them into the hand behind its other log pages, in order: it has room
/// for them. What goes was found by [`unlinkable`] in the cell as it stands; all its entries are published, and no part of
/// it is killed and not yet retired.
///
/// The node stays, now and at each epoch that something is kept for, and so does what the next entry has to follow. The
/// time is linear in the log's entries and parts, and no memory is taken.
/// It takes no memory.
pub fn fast_on(cell: &mut InodeCell, unlinkable: Unlinkable, hand: &mut Hand) -> Cleaned
    requires published { cell.old.state.chain.tail ≡ length cell.old.state.chain.entries }
    requires retired { has_killed cell.old.state ≡ false }
    // Callers hand on what a walk of this cell found as it stands.
    requires walk { unlinkable ≡ unlinkable_of cell.old.state }
    requires room { unlinkable.pages ≤ hand.old.pages.room }
    requires size { hand.old.pages.size ≡ cell.old.state.block }
    // These log pages leave, and go into the hand in order; the others stay whole.
    ensures cell { cell.new.state ≡ with_pages_unlinked unlinkable cell.old.state }
    ensures room { cell.new.room ≡ room_with_pages unlinkable cell.old.state cell.old.room }
    ensures hand { hand.new ≡ with_gone unlinkable cell.old.state hand.old }
    // How many entries and log pages the log lost is told, as the walk told it.
    ensures answer { result ≡ answer_of false cell.old.state cell.new.state }
    ensures entries { result.entries ≡ unlinkable.entries }
    ensures pages { result.pages ≡ unlinkable.pages }
    ensures log { log_of cell.new.state
        ≡ entries_of (select unlinkable.stays (log_pages cell.old.state.chain)) }
    // What is read and the node stay, as in a thorough cleaning.
    ensures values { KeepsValues cell.old.state cell.new.state }
    ensures nodes { NodesStay cell.old.state cell.new.state }
    ensures last { KeepsTheLast cell.old.state cell.new.state }
{
    let entries = cell.len();
    let pages = cell.log().blocks().len();
    // The chain is one, so that its pages part its entries.
    cell.holds_together();
    unlink(cell, &unlinkable, &mut hand.pages);
    Cleaned::since(false, entries, pages, cell)
}

/// Unlinks the pages that go, and puts them into the queue, in order. Where none goes nothing changes, and it costs nothing.
fn unlink(cell: &mut InodeCell, unlinkable: &Unlinkable, queue: &mut BlockQueue)
    requires walk { unlinkable.now ≡ unlinkable_of cell.old.state }
    requires room { unlinkable.now.pages ≤ queue.old.room }
    requires size { queue.old.size ≡ cell.old.state.block }
    ensures cell { cell.new.state ≡ with_pages_unlinked unlinkable.now cell.old.state }
    ensures room { cell.new.room ≡ room_with_pages unlinkable.now cell.old.state cell.old.room }
    ensures queue { let gone = gone_of unlinkable.now.stays cell.old.state.chain.blocks in
        queue.new ≡ record queue.old {
          blocks = queue.old.blocks ++ gone;
          room = queue.old.room - length gone;
        } }
    ensures last { KeepsTheLast cell.old.state cell.new.state }
{
    // What may go is told by the marks of the parts.
    cell.holds_together();
    if unlinkable.pages == 0 {
        return;
    }
    cell.remove_pages(&unlinkable.stays, queue);
}
