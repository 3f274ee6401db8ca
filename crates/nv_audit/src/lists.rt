//! The free lists.

ghost use Rattle.std.specs.Prelude.{◌≡◌, ◌↔◌, ◌<◌, ◌≤◌, ◌++◌, Bool, List, IfOk, IsTrue, OnOk, length, map, slice_index_or};
ghost use Rattle.nv_base.specs.Refusals.{FailsOnly};
ghost use Rattle.nv_base.specs.Memory.{out_of_memory};
ghost use Rattle.nv_alloc.specs.Block.{numbers_of};
ghost use Rattle.nv_alloc.specs.Numbers.{has};
ghost use Rattle.nv_entry.specs.Covered.{part_count};
ghost use Rattle.nv_entry.specs.Held.{keeps, retention_of};
ghost use Rattle.nv_entry.specs.Log.{pairs, pairs_of};
ghost use Rattle.nv_entry.specs.declared.item.Entry.{Entry as EntryValue};
ghost use Rattle.nv_audit.specs.Lists.{AreAllFree, AreFree, AreMarked, IsRangeFree, block_said, blocks_kept, blocks_said, blocks_kept_of, list_or_none, mark_at, said_if, said_of, said_part, used_by, used_from, used_of};
ghost use Rattle.nv_audit.specs.Records.{states_of};
ghost use Rattle.std.specs.Option.{option_copied};

use crate::parts::part_at;
use crate::pending::{listed, living, pending_at, pending_by_slot};
use crate::retained::retained_parts;
use crate::{InHands, InodePart};
use nv_alloc::{Block, FreeList};
use nv_base::{BlockNo, Epoch, Fault, Geometry};
use nv_book::{Book, Record};
use nv_cell::InodeCell;
use nv_entry::{Entry, Item, Part, Retention};
use std::alloc::{AllocError, Global};

/// Whether the free list of each CPU has the numbers of its home range that are not used: neither by a page of a
/// log, nor by a pair that is needed, pending or killed, nor by what is appended and not yet published, nor by a
/// hand. `OutOfMemory` where memory for the parts of a log or for the used numbers was refused.
///
/// Costs one pass over all numbers, one over the deferred records and the parts in hands, and for each inode one pass
/// over its log from the end, with a look-up for each part and for each entry, for each part that is no longer current
/// a scan of the snapshots up to one that holds it, and for each pending part a look-up of its entry.
pub fn are_free(
    alloc: Global,
    geometry: &Geometry,
    cells: &[InodeCell],
    lists: &[FreeList],
    book: &Book,
    hands: &InHands,
) -> Result<bool, Fault>
    // Free lists are passed exactly where each has the unused numbers of its home range.
    // Of the pages that a log names those of kept parts are used, and no others.
    ensures ok { IfOk result (λ are. IsTrue are ↔ AreFree geometry.now.numbers lists.now
        (used_of (states_of cells.now) book.now.state hands.now.parts.items hands.now.blocks.items)) }
    ensures err { FailsOnly out_of_memory result }
{
    let used = used_of(alloc, cells, book, hands)?;
    let marks = marked(alloc, geometry.numbers.blocks, &used)?;
    Ok(are_all_free(geometry, lists, &marks))
}

/// The blocks that inodes and hands use.
fn used_of(
    alloc: Global,
    cells: &[InodeCell],
    book: &Book,
    hands: &InHands,
) -> Result<Vec<BlockNo>, Fault>
    ensures ok { IfOk result (λ used. used.items ≡ used_of (states_of cells.now)
        book.now.state hands.now.parts.items hands.now.blocks.items) }
    ensures err { FailsOnly out_of_memory result }
{
    let snapshots = living(alloc, book)?;
    let deferred = listed(alloc, book.deferred())?;
    let mut used = used_from(alloc, cells, &snapshots, &deferred, &hands.parts)?;
    used.extend_from_slice(&hands.blocks)?;
    Ok(used)
}

/// The blocks that all inodes use.
fn used_from(
    alloc: Global,
    cells: &[InodeCell],
    snapshots: &[Epoch],
    deferred: &[Record],
    in_hands: &[InodePart],
) -> Result<Vec<BlockNo>, Fault>
    ensures ok { IfOk result (λ used. used.items
        ≡ used_from snapshots.now deferred.now in_hands.now 0 (states_of cells.now)) }
    ensures err { FailsOnly out_of_memory result }
{
    let pending = pending_by_slot(alloc, cells.len(), deferred, in_hands)?;
    let mut used = Vec::new(alloc);
    for place in 0..cells.len() {
        let cell = &cells[place];
        let retention = Retention {
            block: cell.block_bytes(),
            snapshots,
            pending: pending_at(&pending, place),
        };
        push_used(alloc, &mut used, &retention, cell)?;
    }
    Ok(used)
}

/// Puts the blocks that an inode uses to the end of a list.
fn push_used(
    alloc: Global,
    used: &mut Vec<BlockNo>,
    retention: &Retention<'_>,
    cell: &InodeCell,
) -> Result<(), Fault>
    requires { retention.now.block ≡ cell.now.state.block }
    ensures ok { OnOk result (used.new.items
        ≡ used.old.items ++ used_by (retention_of retention.now) cell.now.state) }
    ensures err { FailsOnly out_of_memory result }
{
    let chain = cell.log();
    push_pages(used, chain.blocks())?;
    // A log without an entry says no other block.
    if chain.is_empty() {
        return Ok(());
    }
    let kept = retained_parts(alloc, retention, cell)?;
    push_kept(used, retention, chain.log(), &kept)?;
    push_said(used, retention.block, &chain.entries()[chain.tail()..])?;
    Ok(())
}

/// Puts the pages of a log to the end.
pub(crate) fn push_pages(used: &mut Vec<BlockNo>, pages: &[Block]) -> Result<(), AllocError>
    ensures { OnOk result (used.new.items ≡ used.old.items ++ numbers_of pages.now) }
{
    for page in pages {
        used.push(page.number())?;
    }
    Ok(())
}

/// Puts the blocks of the pairs of a log that are kept to the end, where these of its parts are.
pub(crate) fn push_kept(
    used: &mut Vec<BlockNo>,
    retention: &Retention<'_>,
    log: &[Entry],
    kept: &[bool],
) -> Result<(), AllocError>
    requires { kept.now ≡ map (keeps (retention_of retention.now))
        (pairs retention.now.block log.now) }
    ensures { OnOk result (used.new.items
        ≡ used.old.items ++ blocks_kept (retention_of retention.now) log.now) }
{
    let mut left = kept;
    for entry in log {
        let (own, rest) = left.split_at(entry.item.part_count() as usize);
        push_kept_of(used, retention, entry, own)?;
        left = rest;
    }
    Ok(())
}

/// Puts those of one entry to the end.
fn push_kept_of(
    used: &mut Vec<BlockNo>,
    retention: &Retention<'_>,
    entry: &Entry,
    kept: &[bool],
) -> Result<(), AllocError>
    requires { length kept.now ≡ part_count entry.now }
    ensures { OnOk result ((later : List EntryValue)
        → kept.now ≡ map (keeps (retention_of retention.now))
        (pairs_of retention.now.block entry.now later)
        → used.new.items
        ≡ used.old.items ++ blocks_kept_of (retention_of retention.now) entry.now later) }
{
    for place in 0..entry.item.part_count() {
        let part = part_at(&entry.item, place);
        let is_kept = is_kept_at(kept, place as usize);
        push_if_kept(used, retention.block, &entry.item, part, is_kept)?;
    }
    Ok(())
}

fn is_kept_at(kept: &[bool], place: usize) -> bool
    requires { place < length kept.now }
    ensures { (other : Bool) → result ≡ slice_index_or kept.now place other }
{
    kept[place]
}

/// Puts the block of a part to the end, if it is kept and has one.
fn push_if_kept(
    used: &mut Vec<BlockNo>,
    block: u64,
    item: &Item,
    part: Part,
    is_kept: bool,
) -> Result<(), AllocError>
    requires { 0 < block }
    ensures { OnOk result (used.new.items
        ≡ used.old.items ++ said_if is_kept block item.now part) }
{
    if is_kept {
        push_said_part(used, block, item, part)?;
    }
    Ok(())
}

/// Puts the blocks that these entries say of their pages to the end.
fn push_said(used: &mut Vec<BlockNo>, block: u64, entries: &[Entry]) -> Result<(), AllocError>
    requires { 0 < block }
    ensures { OnOk result (used.new.items ≡ used.old.items ++ blocks_said block entries.now) }
{
    for entry in entries {
        push_said_of(used, block, &entry.item)?;
    }
    Ok(())
}

/// Puts those of one entry to the end.
fn push_said_of(used: &mut Vec<BlockNo>, block: u64, item: &Item) -> Result<(), AllocError>
    requires { 0 < block }
    ensures { OnOk result (used.new.items ≡ used.old.items ++ said_of block item.now) }
{
    for place in 0..item.part_count() {
        push_said_part(used, block, item, part_at(item, place))?;
    }
    Ok(())
}

/// Puts the block of a part to the end, if it has one.
fn push_said_part(
    used: &mut Vec<BlockNo>,
    block: u64,
    item: &Item,
    part: Part,
) -> Result<(), AllocError>
    requires { 0 < block }
    ensures { OnOk result (used.new.items ≡ used.old.items ++ said_part block item.now part) }
{
    if let Some(number) = block_said(block, item, part) {
        used.push(number)?;
    }
    Ok(())
}

/// The block that an item says of one of its parts, if that is a page.
fn block_said(block: u64, item: &Item, part: Part) -> Option<BlockNo>
    requires { 0 < block }
    ensures { result ≡ block_said block item.now part }
{
    let value = item.setting(block, item.part_key(part)).value()?;
    value.block()
}

/// Which of the first numbers stand in a list.
fn marked(alloc: Global, blocks: u64, used: &[BlockNo]) -> Result<Vec<bool>, AllocError>
    ensures { IfOk result (λ marks. AreMarked blocks used.now marks.items) }
{
    let mut marks = vec![in alloc; false; blocks as usize]?;
    for number in used {
        let place = number.number() as usize;
        if place < marks.len() {
            marks[place] = true;
        }
    }
    Ok(marks)
}

/// Whether each list has the unmarked numbers of its home range.
fn are_all_free(geometry: &Geometry, lists: &[FreeList], marks: &[bool]) -> bool
    requires { length marks.now ≡ geometry.now.numbers.blocks }
    ensures { IsTrue result ↔ AreAllFree geometry.now.numbers lists.now (mark_at marks.now) }
{
    for cpu in 0..geometry.numbers.cpus {
        let start = geometry.home_start(cpu);
        let end = geometry.home_start(cpu + 1);
        if !is_range_free(lists.get(cpu as usize), start, end, marks) {
            return false;
        }
    }
    true
}

/// Whether a list has the unmarked numbers of a range, and no others of it.
fn is_range_free(list: Option<&FreeList>, start: u64, end: u64, marks: &[bool]) -> bool
    requires { end ≤ length marks.now }
    ensures { IsTrue result ↔ IsRangeFree (list_or_none (option_copied list.entry))
        (mark_at marks.now) start end }
{
    for number in start..end {
        if is_free(list, number) == marks[number as usize] {
            return false;
        }
    }
    true
}

fn is_free(list: Option<&FreeList>, number: u64) -> bool
    ensures { result ≡ has (numbers_of (list_or_none (option_copied list.entry)).blocks) number }
{
    match list {
        Some(list) => list.has(BlockNo::new(number)),
        None => false,
    }
}
