//! The whole audit.

ghost use Rattle.std.specs.Prelude.{◌≡◌, ◌⊎◌, IfErr, IfOk, IsTrue, MatchOption, OnOk, length};
ghost use Rattle.nv_base.specs.Refusals.{FailsOnly};
ghost use Rattle.nv_base.specs.Memory.{out_of_memory};
ghost use Rattle.nv_base.specs.declared.fault.MismatchPart.TheVariants.{Counts};
ghost use Rattle.nv_audit.specs.Records.{states_of};
ghost use Rattle.nv_audit.specs.Whole.{Agrees, CountsAgree, CountsAgreeBy, CountsAgreeWith, IsCountedWith, IsMismatch, device_with};

use crate::pending::{listed, living, pending_at, pending_by_slot};
use crate::{
    Audited, InHands, InodePart, are_counted, are_free, are_names_of, are_pages_of, are_recorded,
    is_part_of,
};
use nv_alloc::FreeList;
use nv_base::{Epoch, Fault, Geometry, MismatchPart};
use nv_book::{Book, Record};
use nv_cell::InodeCell;
use nv_entry::{Key, PartId, Retention};
use std::alloc::Global;

/// Judges a device between two steps, of which the hands of all calls have some blocks and parts.
///
/// `Mismatch` with the first part that differs from one scan of all logs: inode by inode the index, the names and the
/// counts, and then the records and the free lists. What a cell keeps as its index and names is at all times the scan
/// of its log, so that these two never differ. `OutOfMemory` where room was refused. It costs what [`are_pages_of`],
/// [`are_names_of`], [`are_counted`], [`are_recorded`] and [`are_free`] cost, the first three for each inode, and for
/// each inode three more passes over its log; and a pass over the deferred records and the parts in hands.
pub fn audit<'a>(
    alloc: Global,
    geometry: &'a Geometry,
    cells: &'a [InodeCell],
    lists: &'a [FreeList],
    book: &'a Book,
    hands: InHands,
) -> Result<Audited<'a>, Fault>
    // What an audit gives is the device that it was handed.
    ensures ok { IfOk result (λ audited. audited
        ≡ device_with geometry.now.numbers cells.now lists.now book.now.state hands) }
    // The audit is `Ok` only where counts, records and free lists are those from scratch.
    // What is from scratch is told by one scan of all logs, of the snapshot list and of what hands have.
    ensures agrees { OnOk result
        (Agrees (device_with geometry.now.numbers cells.now lists.now book.now.state hands)) }
    // The first part that differs is answered.
    // Deferred records count, inode by inode.
    // The only other error is `OutOfMemory`.
    // Of a cell the index and the names never differ.
    ensures err { IfErr result (λ fault. (fault ≡ out_of_memory) ⊎ IsMismatch
        (device_with geometry.now.numbers cells.now lists.now book.now.state hands) fault) }
{
    let differs = cells_differ(alloc, cells, book, &hands)?;
    if let Some(part) = differs {
        return Err(Fault::Mismatch(part));
    }
    let recorded = are_recorded(alloc, cells, book, &hands)?;
    if !recorded {
        return Err(Fault::Mismatch(MismatchPart::Records));
    }
    let free = are_free(alloc, geometry, cells, lists, book, &hands)?;
    if !free {
        return Err(Fault::Mismatch(MismatchPart::Lists));
    }
    Ok(Audited {
        geometry,
        cells,
        lists,
        book,
        hands,
    })
}

/// The first part of the first cell that differs.
fn cells_differ(
    alloc: Global,
    cells: &[InodeCell],
    book: &Book,
    hands: &InHands,
) -> Result<Option<MismatchPart>, Fault>
    ensures ok { IfOk result (λ part. MatchOption part
        (CountsAgree book.now.state hands.now.parts.items (states_of cells.now))
        (λ part. (part ≡ Counts)
        × (¬ CountsAgree book.now.state hands.now.parts.items (states_of cells.now)))) }
    ensures err { FailsOnly out_of_memory result }
{
    let snapshots = living(alloc, book)?;
    let deferred = listed(alloc, book.deferred())?;
    first_different(alloc, cells, &snapshots, &deferred, &hands.parts)
}

/// The first part of the first cell that differs, where these snapshots live and these records are deferred.
fn first_different(
    alloc: Global,
    cells: &[InodeCell],
    snapshots: &[Epoch],
    deferred: &[Record],
    in_hands: &[InodePart],
) -> Result<Option<MismatchPart>, Fault>
    ensures ok { IfOk result (λ part. MatchOption part
        (CountsAgreeBy snapshots.now deferred.now in_hands.now (states_of cells.now))
        (λ part. (part ≡ Counts)
        × (¬ CountsAgreeBy snapshots.now deferred.now in_hands.now (states_of cells.now)))) }
    ensures err { FailsOnly out_of_memory result }
{
    let pending = pending_by_slot(alloc, cells.len(), deferred, in_hands)?;
    let first = first_with(alloc, cells, snapshots, &pending)?;
    Ok(first)
}

/// The first part of the first cell that differs, where these lists have the pending parts of each slot.
fn first_with(
    alloc: Global,
    cells: &[InodeCell],
    snapshots: &[Epoch],
    pending: &[Vec<PartId>],
) -> Result<Option<MismatchPart>, Fault>
    ensures ok { IfOk result (λ part. MatchOption part
        (CountsAgreeWith snapshots.now pending.now (states_of cells.now))
        (λ part. (part ≡ Counts)
        × (¬ CountsAgreeWith snapshots.now pending.now (states_of cells.now)))) }
    ensures err { FailsOnly out_of_memory result }
{
    for place in 0..cells.len() {
        let differs = inode_differs(alloc, &cells[place], snapshots, pending_at(pending, place))?;
        if differs.is_some() {
            return Ok(differs);
        }
    }
    Ok(None)
}

/// The first part of an inode that differs.
fn inode_differs(
    alloc: Global,
    cell: &InodeCell,
    snapshots: &[Epoch],
    pending: &[PartId],
) -> Result<Option<MismatchPart>, Fault>
    ensures ok { IfOk result (λ part. MatchOption part
        (IsCountedWith snapshots.now pending.now cell.now.state)
        (λ part. (part ≡ Counts)
        × (¬ IsCountedWith snapshots.now pending.now cell.now.state))) }
    ensures err { FailsOnly out_of_memory result }
{
    // Where no log page has an entry, there is nothing to count.
    if cell.log().ends().is_empty() {
        return Ok(None);
    }
    let indexed = is_indexed(alloc, cell)?;
    if !indexed {
        return Ok(Some(MismatchPart::Index));
    }
    let named = are_names_of(alloc, cell.log().log(), cell.name_index())?;
    if !named {
        return Ok(Some(MismatchPart::Names));
    }
    counts_differ(alloc, cell, snapshots, pending)
}

/// `Counts` where the counts of an inode differ. It costs what [`are_counted`] does.
pub(crate) fn counts_differ(
    alloc: Global,
    cell: &InodeCell,
    snapshots: &[Epoch],
    pending: &[PartId],
) -> Result<Option<MismatchPart>, Fault>
    ensures ok { IfOk result (λ part. MatchOption part
        (IsCountedWith snapshots.now pending.now cell.now.state)
        (λ part. (part ≡ Counts)
        × (¬ IsCountedWith snapshots.now pending.now cell.now.state))) }
    ensures err { FailsOnly out_of_memory result }
{
    let retention = Retention {
        block: cell.block_bytes(),
        snapshots,
        pending,
    };
    let counted = are_counted(alloc, &retention, cell)?;
    if !counted {
        return Ok(Some(MismatchPart::Counts));
    }
    Ok(None)
}

/// Whether the index of a cell is the scan of its log, as it is at all times.
fn is_indexed(alloc: Global, cell: &InodeCell) -> Result<bool, Fault>
    ensures ok { IfOk result (λ is. IsTrue is) }
    ensures err { FailsOnly out_of_memory result }
{
    if !are_fields_indexed(cell) {
        return Ok(false);
    }
    are_pages_of(
        alloc,
        cell.block_bytes(),
        cell.log().log(),
        cell.page_index(),
    )
}

/// Whether the kind, mode and size of a cell's index are those of its log.
fn are_fields_indexed(cell: &InodeCell) -> bool
    ensures { IsTrue result }
{
    let block = cell.block_bytes();
    let log = cell.log().log();
    is_part_of(block, log, Key::Kind, cell.indexed(Key::Kind))
        && is_part_of(block, log, Key::Mode, cell.indexed(Key::Mode))
        && is_part_of(block, log, Key::Size, cell.indexed(Key::Size))
}
