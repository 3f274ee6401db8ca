//! The records of a book, inode by inode.

ghost use Rattle.std.specs.Prelude.{◌≡◌, ◌↔◌, ℕ, ◌<◌, ◌++◌, [], All, IfOk, IsTrue, OnOk, length};
ghost use Rattle.nv_base.specs.Refusals.{FailsOnly};
ghost use Rattle.nv_base.specs.Memory.{out_of_memory};
ghost use Rattle.nv_book.specs.declared.record.Record.{Record as RecordValue};
ghost use Rattle.nv_epoch.specs.SnapList.{ids};
ghost use Rattle.nv_audit.specs.KeptParts.{AreAllRecordsOf, AreBySlot, AreRecordsOf, cell_in, list_at, records_in};
ghost use Rattle.nv_audit.specs.Records.{states_of};

use crate::are_records_of;
use nv_base::Fault;
use nv_book::{Book, Record, Records};
use nv_cell::InodeCell;
use nv_epoch::SnapList;
use std::alloc::{AllocError, Global};

/// Whether the records of a book, those of all manifests and the deferred ones, are those of all cells. Costs for each
/// cell what [`are_records_of`] costs, and memory for each record.
pub fn are_all_records_of(alloc: Global, book: &Book, cells: &[InodeCell]) -> Result<bool, Fault>
    // A book passes just where each record is of a slot, and each slot has the records of its cell.
    ensures ok { IfOk result (λ are. IsTrue are
        ↔ AreAllRecordsOf book.now.state (states_of cells.now)) }
    // The only error is `OutOfMemory`.
    ensures err { FailsOnly out_of_memory result }
{
    let records = all_records(alloc, book)?;
    if !are_of_slots(cells.len(), &records) {
        return Ok(false);
    }
    let lists = by_slot(alloc, cells.len(), &records)?;
    let are = are_records_of_each(alloc, book.snaps(), &lists, cells)?;
    Ok(are)
}

/// All records of a book: those of its manifests, and the deferred ones.
pub(crate) fn all_records(alloc: Global, book: &Book) -> Result<Vec<Record>, AllocError>
    ensures { IfOk result (λ records. records.items ≡ records_in book.now.state) }
{
    let mut all = Vec::new(alloc);
    for manifest in book.manifests() {
        push_records(&mut all, &manifest.records)?;
    }
    push_records(&mut all, book.deferred())?;
    Ok(all)
}

/// Puts records to the end of a list.
fn push_records(all: &mut Vec<Record>, records: &Records) -> Result<(), AllocError>
    ensures { OnOk result (all.new.items ≡ all.old.items ++ records.now) }
{
    for next in records.iter() {
        all.push(next)?;
    }
    Ok(())
}

/// Whether each record is of one of so many slots.
fn are_of_slots(slots: usize, records: &[Record]) -> bool
    ensures { IsTrue result ↔ All (λ (d : RecordValue). d.ino < slots) records.now }
{
    for record in records {
        if record.ino.number() >= slots as u64 {
            return false;
        }
    }
    true
}

/// The records of each of so many slots.
fn by_slot(alloc: Global, slots: usize, records: &[Record]) -> Result<Vec<Vec<Record>>, AllocError>
    requires { All (λ (d : RecordValue). d.ino < slots) records.now }
    ensures { IfOk result (λ lists. AreBySlot slots records.now lists.items) }
{
    let mut lists = empty_lists(alloc, slots)?;
    for record in records {
        let list = &mut lists[record.ino.number() as usize];
        list.push(*record)?;
    }
    Ok(lists)
}

fn empty_lists(alloc: Global, count: usize) -> Result<Vec<Vec<Record>>, AllocError>
    ensures { IfOk result (λ lists. AreBySlot count [] lists.items) }
{
    let mut lists = Vec::new(alloc);
    for _slot in 0..count {
        lists.push(Vec::new(alloc))?;
    }
    Ok(lists)
}

/// Whether each of these lists has the records of the cell at its place.
fn are_records_of_each(
    alloc: Global,
    snaps: &SnapList,
    lists: &[Vec<Record>],
    cells: &[InodeCell],
) -> Result<bool, Fault>
    requires { length lists.now ≡ length cells.now }
    ensures ok { IfOk result (λ are. IsTrue are
        ↔ ((ino : ℕ) → ino < length cells.now → AreRecordsOf (ids snaps.now)
        (cell_in (states_of cells.now) ino) (list_at lists.now ino))) }
    ensures err { FailsOnly out_of_memory result }
{
    for place in 0..cells.len() {
        let are = are_records_of(alloc, snaps, &lists[place], &cells[place])?;
        if !are {
            return Ok(false);
        }
    }
    Ok(true)
}
