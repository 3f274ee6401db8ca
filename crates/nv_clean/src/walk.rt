//! The walks of the cleaners in one pass over the log of a cell.

ghost use Rattle.std.specs.Prelude.{◌≡◌, ℕ, ◌+◌, ◌-◌, ◌<◌, ◌≤◌, ◌++◌, [], IfOk, OnOk, if◌then◌else◌, List, Some, drop, length, min, nat_lt, not, replicate, slice_get, slice_index_or, take, ◌&&◌, false, true};
ghost use Rattle.nv_cell.specs.Cell.{log_of};
ghost use Rattle.nv_entry.specs.ByFlags.{goes_by, page_goes_by};
ghost use Rattle.nv_clean.specs.Cover.{Covers, is_hidden};
ghost use Rattle.nv_clean.specs.Plans.{entries_staying, pages_staying};
ghost use Rattle.nv_cell.specs.Readers.{there_flags};
ghost use Rattle.nv_entry.specs.declared.item.Entry.{Entry};
ghost use Rattle.nv_log.specs.Chain.{end_of, start_of};

use crate::cover::Cover;
use nv_cell::InodeCell;
use nv_entry::Item;
use std::alloc::{AllocError, Global};

/// Which entries of the log stay in a thorough cleaning, a flag for each: those that something keeps, those that hide an
/// earlier one that stays, and the last. Where the tallies tell that none may go, no entry is looked at. Takes a byte an
/// entry, and else a place in a set for each name that stays.
pub(crate) fn entries_staying(alloc: Global, cell: &InodeCell) -> Result<Vec<bool>, AllocError>
    ensures { IfOk result (λ stays. stays.items ≡ entries_staying cell.now.state) }
{
    if are_entries_kept(cell) {
        return vec![in alloc; true; cell.tail()];
    }
    entries_walked(alloc, cell)
}

/// Which pages with entries stay in a fast cleaning, a flag for each: those with an entry that would stay, where the
/// earlier entries of the page count as gone, and those of which no entry is published. Where the counts tell that none
/// may go, no entry is looked at. Takes a byte a page, and else a place in a set for each name that stays.
pub(crate) fn pages_staying(alloc: Global, cell: &InodeCell) -> Result<Vec<bool>, AllocError>
    ensures { IfOk result (λ stays. stays.items ≡ pages_staying cell.now.state) }
{
    if are_pages_kept(cell) {
        return vec![in alloc; true; cell.log().ends().len()];
    }
    pages_walked(alloc, cell)
}

/// Whether something keeps each entry of the log except the last, so that each stays.
fn are_entries_kept(cell: &InodeCell) -> bool
    ensures { result ≡ true
        → entries_staying cell.now.state ≡ replicate cell.now.state.chain.tail true }
{
    // The chain is one, so that as many entries count as there are in the log.
    cell.holds_together();
    for place in 1..cell.tail() {
        if !cell.keeps_entry(place - 1) {
            return false;
        }
    }
    true
}

/// Whether something keeps an entry of each page with entries, so that each stays.
fn are_pages_kept(cell: &InodeCell) -> bool
    ensures { result ≡ true
        → pages_staying cell.now.state ≡ replicate (length cell.now.state.chain.ends) true }
{
    for k in 0..cell.log().ends().len() {
        if cell.counts(k).valid == 0 {
            return false;
        }
    }
    true
}

/// Which entries stay, by a walk from the head.
fn entries_walked(alloc: Global, cell: &InodeCell) -> Result<Vec<bool>, AllocError>
    ensures { IfOk result (λ stays. stays.items ≡ entries_staying cell.now.state) }
{
    // The chain is one, so that as many entries count as there are in the log.
    cell.holds_together();
    let mut stays = Vec::with_capacity(alloc, cell.tail())?;
    let mut cover = Cover::new(alloc);
    for place in 0..cell.tail() {
        let goes = may_go(cell, place, &cover);
        note(cell, &mut cover, place, place + 1, goes)?;
        stays.push(!goes)?;
    }
    Ok(stays)
}

/// Which pages stay, by a walk from the head.
fn pages_walked(alloc: Global, cell: &InodeCell) -> Result<Vec<bool>, AllocError>
    ensures { IfOk result (λ stays. stays.items ≡ pages_staying cell.now.state) }
{
    // The chain is one, so that its pages part its entries.
    cell.holds_together();
    let chain = cell.log();
    let mut stays = Vec::with_capacity(alloc, chain.ends().len())?;
    let mut cover = Cover::new(alloc);
    for k in 0..chain.ends().len() {
        let start = chain.page_start(k).min(chain.tail());
        let end = chain.page_end(k).min(chain.tail());
        let goes = page_goes(cell, k, start, end, &cover);
        note(cell, &mut cover, start, end, goes)?;
        stays.push(!goes)?;
    }
    Ok(stays)
}

/// Whether a page goes, which has the published entries from one place up to another. Where its counts tell that something
/// keeps one of them it stays, and no entry is looked at.
fn page_goes(cell: &InodeCell, k: usize, from: usize, to: usize, cover: &Cover<'_>) -> bool
    requires page { k < length cell.now.state.chain.ends }
    requires from { from ≡ min (start_of cell.now.state.chain k) cell.now.state.chain.tail }
    requires to { to ≡ min (end_of cell.now.state.chain k) cell.now.state.chain.tail }
    ensures { (before : List Entry) → Covers cell.now.state.block before cover.now
        → result ≡ page_goes_by cell.now.state.block (drop from (there_flags cell.now.state)) before
        (take (to - from) (drop from (log_of cell.now.state))) (drop to (log_of cell.now.state)) }
{
    // The chain is one, so that its pages part its entries.
    cell.holds_together();
    cell.counts(k).valid == 0 && entries_go(cell, from, to, cover)
}

/// Whether there are published entries from one place up to another, and each may go.
fn entries_go(cell: &InodeCell, from: usize, to: usize, cover: &Cover<'_>) -> bool
    requires order { from ≤ to }
    requires within { to ≤ cell.now.state.chain.tail }
    ensures { (before : List Entry) → Covers cell.now.state.block before cover.now
        → result ≡ page_goes_by cell.now.state.block (drop from (there_flags cell.now.state)) before
        (take (to - from) (drop from (log_of cell.now.state))) (drop to (log_of cell.now.state)) }
{
    // The chain is one, so that each entry of the log is one of all.
    cell.holds_together();
    for place in from..to {
        if !may_go(cell, place, cover) {
            return false;
        }
    }
    from < to
}

/// Whether the entry at a place may go: it is not the last, nothing keeps one of its parts, and it sets no key to absent
/// that an entry covers which stays before it.
fn may_go(cell: &InodeCell, place: usize, cover: &Cover<'_>) -> bool
    requires { place < cell.now.state.chain.tail }
    ensures { (before : List Entry) (e : Entry) → Covers cell.now.state.block before cover.now
        → slice_get (log_of cell.now.state) place ≡ Some e
        → result ≡ goes_by cell.now.state.block
        (slice_index_or (there_flags cell.now.state) place false) before e
        (drop (place + 1) (log_of cell.now.state)) }
{
    // The chain is one, so that each entry of the log is one of all.
    cell.holds_together();
    let entry = cell.log().entry_at(place);
    is_free(cell, place, &entry.item, cover)
}

/// Whether the entry at a place, which has this item, may go.
fn is_free(cell: &InodeCell, place: usize, item: &Item, cover: &Cover<'_>) -> bool
    requires { place < cell.now.state.chain.tail }
    ensures { result ≡ (nat_lt (place + 1) cell.now.state.chain.tail
        && not (slice_index_or (there_flags cell.now.state) place false)
        && not (is_hidden cell.now.state.block item.now cover.now)) }
{
    let count = cell.tail();
    let block = cell.block_bytes();
    place + 1 < count && !cell.keeps_entry(place) && !cover.is_hidden_by(block, item)
}

/// The entries from one place up to another stay, unless they go.
fn note<'a>(
    cell: &'a InodeCell,
    cover: &mut Cover<'a>,
    from: usize,
    to: usize,
    go: bool,
) -> Result<(), AllocError>
    requires order { from ≤ to }
    requires within { to ≤ cell.now.state.chain.tail }
    ensures { OnOk result ((before : List Entry) → Covers cell.now.state.block before cover.old
        → Covers cell.now.state.block
        (if go then before else before ++ take (to - from) (drop from (log_of cell.now.state)))
        cover.new) }
{
    if go {
        return Ok(());
    }
    note_all(cell, cover, from, to)
}

/// The entries from one place up to another stay.
fn note_all<'a>(
    cell: &'a InodeCell,
    cover: &mut Cover<'a>,
    from: usize,
    to: usize,
) -> Result<(), AllocError>
    requires order { from ≤ to }
    requires within { to ≤ cell.now.state.chain.tail }
    ensures { OnOk result ((before : List Entry) → Covers cell.now.state.block before cover.old
        → Covers cell.now.state.block
        (before ++ take (to - from) (drop from (log_of cell.now.state))) cover.new) }
{
    // The chain is one, so that each entry of the log is one of all.
    cell.holds_together();
    let block = cell.block_bytes();
    for place in from..to {
        cover.add(block, &cell.log().entry_at(place).item)?;
    }
    Ok(())
}
