//! The parts of a device at rest, and the first of them that differs.

ghost use Rattle.std.specs.Prelude.{◌≡◌, ◌↔◌, ℕ, [], All, IfOk, IsTrue, MatchOption, length};
ghost use Rattle.nv_base.specs.Refusals.{FailsOnly};
ghost use Rattle.nv_base.specs.Memory.{out_of_memory};
ghost use Rattle.nv_book.specs.Book.{BookState};
ghost use Rattle.nv_cell.specs.Cell.{CellValue};
ghost use Rattle.nv_epoch.specs.SnapList.{ids};
ghost use Rattle.nv_audit.specs.AtRest.{IsOneBook};
ghost use Rattle.nv_audit.specs.Nodes.{AreTrees};
ghost use Rattle.nv_audit.specs.Pending.{pending_of};
ghost use Rattle.nv_audit.specs.Records.{states_of};
ghost use Rattle.nv_audit.specs.Resting.{AreAtRest, AreInodesAtRest, HasIndex, HasShape, HaveLists, HaveRecords, IsBookWith, IsFirstAtRest, IsFirstOfInode, IsFirstOfInodes, IsInodeAtRest, IsOfPast};

use crate::held_shape::is_held_lawful;
use crate::logged::Logged;
use crate::pending::{all_pending, listed, living};
use crate::whole::counts_differ;
use crate::{
    InHands, are_all_records_of, are_blocks_apart, are_lists_of, are_recorded, are_slots_of,
    ends_at_size, ends_at_tail, form_trees, has_none_killed, is_at_rest, is_each_block_once,
    is_left_shaped, is_pool_of, is_up_to,
};
use nv_alloc::{FreeList, InodePool};
use nv_base::{Epoch, Fault, Geometry, MismatchPart};
use nv_book::Book;
use nv_cell::InodeCell;
use nv_entry::PartId;
use std::alloc::Global;

/// The first part of a device at rest that differs, if one does: inode by inode the index, the names and the counts, then
/// the names of all directories, the records and the lists. The only error is `OutOfMemory`. It costs what the questions
/// cost that it asks.
pub fn rest_differs(
    alloc: Global,
    geometry: &Geometry,
    cells: &[InodeCell],
    lists: &[FreeList],
    pool: &InodePool,
    book: &Book,
) -> Result<Option<MismatchPart>, Fault>
    // None differs just where the parts are at rest.
    // Else the first part that differs is told.
    ensures ok { IfOk result (λ part. MatchOption part
        (AreAtRest geometry.now.numbers (states_of cells.now) lists.now pool.now book.now.state)
        (λ part. IsFirstAtRest part geometry.now.numbers (states_of cells.now)
        lists.now pool.now book.now.state)) }
    // The only error is `OutOfMemory`.
    ensures err { FailsOnly out_of_memory result }
{
    let hands = no_hands(alloc);
    let differs = inodes_differ(alloc, cells, book, &hands)?;
    if differs.is_some() {
        return Ok(differs);
    }
    let trees = have_trees(alloc, cells, book)?;
    if !trees {
        return Ok(Some(MismatchPart::Names));
    }
    let records = have_records(alloc, cells, book, &hands)?;
    if !records {
        return Ok(Some(MismatchPart::Records));
    }
    let parts = have_lists(alloc, geometry, cells, lists, pool, book)?;
    if !parts {
        return Ok(Some(MismatchPart::Lists));
    }
    Ok(None)
}

/// The hands of no call.
fn no_hands(alloc: Global) -> InHands
    ensures blocks { result.blocks.items ≡ [] }
    ensures parts { result.parts.items ≡ [] }
{
    InHands {
        blocks: Vec::new(alloc),
        parts: Vec::new(alloc),
    }
}

/// The first part of the first inode that differs.
fn inodes_differ(
    alloc: Global,
    cells: &[InodeCell],
    book: &Book,
    hands: &InHands,
) -> Result<Option<MismatchPart>, Fault>
    requires { hands.now.parts.items ≡ [] }
    ensures ok { IfOk result (λ part. MatchOption part
        (AreInodesAtRest book.now.state (states_of cells.now))
        (λ part. IsFirstOfInodes part book.now.state (states_of cells.now))) }
    ensures err { FailsOnly out_of_memory result }
{
    let snapshots = living(alloc, book)?;
    let deferred = listed(alloc, book.deferred())?;
    let pending = all_pending(alloc, cells.len(), &deferred, &hands.parts)?;
    let first = first_resting(alloc, cells, &snapshots, &pending)?;
    Ok(first)
}

/// The first part of the first inode that differs, for each book that has these snapshots, and these pending parts
/// of each slot, where nothing is in hands.
fn first_resting(
    alloc: Global,
    cells: &[InodeCell],
    snapshots: &[Epoch],
    pending: &[Vec<PartId>],
) -> Result<Option<MismatchPart>, Fault>
    requires { length pending.now ≡ length cells.now }
    ensures ok { IfOk result (λ part. (book : BookState)
        → IsBookWith snapshots.now pending.now book
        → MatchOption part (AreInodesAtRest book (states_of cells.now))
        (λ part. IsFirstOfInodes part book (states_of cells.now))) }
    ensures err { FailsOnly out_of_memory result }
{
    for place in 0..cells.len() {
        let differs = at_rest_differs(alloc, &cells[place], snapshots, &pending[place])?;
        if differs.is_some() {
            return Ok(differs);
        }
    }
    Ok(None)
}

/// The first part of an inode that differs, for each book and number of which these are the snapshots and the pending
/// parts.
fn at_rest_differs(
    alloc: Global,
    cell: &InodeCell,
    snapshots: &[Epoch],
    pending: &[PartId],
) -> Result<Option<MismatchPart>, Fault>
    ensures ok { IfOk result (λ part. (book : BookState) (ino : ℕ) → snapshots.now ≡ ids book.snaps
        → pending.now ≡ pending_of ino book.deferred []
        → MatchOption part (IsInodeAtRest book ino cell.now.state)
        (λ part. IsFirstOfInode part book ino cell.now.state)) }
    ensures err { FailsOnly out_of_memory result }
{
    let indexed = has_index(alloc, cell)?;
    if !indexed {
        return Ok(Some(MismatchPart::Index));
    }
    let shaped = has_shape(alloc, cell, snapshots)?;
    if !shaped {
        return Ok(Some(MismatchPart::Names));
    }
    let counts = counts_differ(alloc, cell, snapshots, pending)?;
    Ok(counts)
}

/// Whether the log of a cell is of its shape, and lawful from nothing on where one of these snapshots holds something of
/// it.
fn has_shape(alloc: Global, cell: &InodeCell, snapshots: &[Epoch]) -> Result<bool, Fault>
    ensures ok { IfOk result (λ has. IsTrue has ↔ HasShape snapshots.now cell.now.state) }
    ensures err { FailsOnly out_of_memory result }
{
    if !is_left_shaped(cell.block_bytes(), cell.log().log()) {
        return Ok(false);
    }
    let logged = Logged::of(cell);
    let lawful = is_held_lawful(alloc, snapshots, &logged)?;
    Ok(lawful)
}

/// Whether the directories form a tree now and at each living snapshot.
fn have_trees(alloc: Global, cells: &[InodeCell], book: &Book) -> Result<bool, Fault>
    ensures ok { IfOk result (λ trees. IsTrue trees
        ↔ AreTrees (ids book.now.state.snaps) (states_of cells.now)) }
    ensures err { FailsOnly out_of_memory result }
{
    let snapshots = living(alloc, book)?;
    form_trees(alloc, &snapshots, cells)
}

/// Whether a cell has no entry past its tail, no block of two parts, and a file that ends at its size.
fn has_index(alloc: Global, cell: &InodeCell) -> Result<bool, Fault>
    ensures ok { IfOk result (λ has. IsTrue has ↔ HasIndex cell.now.state) }
    ensures err { FailsOnly out_of_memory result }
{
    // The cell is one.
    cell.holds_together();
    if !ends_at_tail(cell) {
        return Ok(false);
    }
    if !ends_at_size(cell) {
        return Ok(false);
    }
    let apart = are_blocks_apart(alloc, cell)?;
    Ok(apart)
}

/// Whether the book is at rest, no cell is later than it, and its records are those of all cells.
fn have_records(
    alloc: Global,
    cells: &[InodeCell],
    book: &Book,
    hands: &InHands,
) -> Result<bool, Fault>
    requires { hands.now.parts.items ≡ [] }
    ensures ok { IfOk result (λ have. IsTrue have
        ↔ HaveRecords (states_of cells.now) book.now.state) }
    ensures err { FailsOnly out_of_memory result }
{
    book_holds_together(book);
    if !is_at_rest(book) {
        return Ok(false);
    }
    if !are_all_of_past(cells, book) {
        return Ok(false);
    }
    let kept = are_all_records_of(alloc, book, cells)?;
    if !kept {
        return Ok(false);
    }
    let scanned = are_recorded(alloc, cells, book, hands)?;
    Ok(scanned)
}

/// What holds of each book.
fn book_holds_together(book: &Book)
    ensures { IsOneBook book.now.state }
{
    book.snaps().rises();
    book.keeps_its_limit();
}

/// Whether no cell has a part that is marked killed, or anything later than the book.
fn are_all_of_past(cells: &[InodeCell], book: &Book) -> bool
    ensures { IsTrue result ↔ All (IsOfPast book.now.state) (states_of cells.now) }
{
    are_of_past(cells, book)
}

/// Whether no cell has a part that is marked killed, or anything later than the book: cell by cell.
fn are_of_past(cells: &[InodeCell], book: &Book) -> bool
    ensures { IsTrue result ↔ All (λ (c : CellValue). IsOfPast book.now.state c.state) cells.now }
{
    for cell in cells {
        if !is_of_past(cell, book) {
            return false;
        }
    }
    true
}

fn is_of_past(cell: &InodeCell, book: &Book) -> bool
    ensures { IsTrue result ↔ IsOfPast book.now.state cell.now.state }
{
    has_none_killed(cell) && is_up_to(book.commit(), book.epoch(), cell)
}

/// Whether each part was made for the device at its place, and each block stands once.
fn have_lists(
    alloc: Global,
    geometry: &Geometry,
    cells: &[InodeCell],
    lists: &[FreeList],
    pool: &InodePool,
    book: &Book,
) -> Result<bool, Fault>
    ensures ok { IfOk result (λ have. IsTrue have ↔ HaveLists geometry.now.numbers
        (states_of cells.now) lists.now pool.now book.now.state) }
    ensures err { FailsOnly out_of_memory result }
{
    let once = is_each_block_once(alloc, geometry, lists, cells)?;
    Ok(
        book.made_for(geometry)
            && are_lists_of(geometry, lists)
            && are_slots_of(geometry, cells)
            && is_pool_of(geometry, cells, pool)
            && once,
    )
}
