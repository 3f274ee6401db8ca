//! Locked parts are taken apart for a world, and put together again where it is refused.

ghost use Rattle.std.specs.Prelude.{◌≡◌, ◌≤◌, [], length, map, vec_capacity, vec_len};
ghost use Rattle.nv_sessions.specs.Locked.{IsAt, blocks_there};
ghost use Rattle.nv_sessions.specs.UnlockedParts.{AreAllSlots, list_told, rest_told, cell_told};

use crate::beside::Beside;
use crate::cell::LockedCell;
use crate::cell_locks::CellLocks;
use crate::list::LockedList;
use crate::names::{Blocks, Commits};
use crate::unlocked_parts::{BesideCell, BesideList};
use crossbeam_utils::CachePadded;
use nv_alloc::FreeList;
use nv_base::{Gen, Geometry};
use nv_cell::InodeCell;
use std::alloc::Global;
use std::sync::Mutex;

/// The locks of cells, which are empty afterwards and keep their room; the cells and what lay beside them, in room that
/// was made before.
pub(crate) fn unlock_cells<C: Commits, B: Blocks>(
    alloc: Global,
    geometry: &Geometry,
    locks: &mut CellLocks<C, B>,
    mut cells: Vec<InodeCell>,
    mut rests: Vec<BesideCell<C, B>>,
) -> (Vec<InodeCell>, Vec<BesideCell<C, B>>)
    requires empty { (cells.items ≡ []) × (rests.items ≡ []) }
    requires room { (vec_len locks.old.locks ≤ vec_capacity cells)
        × (vec_len locks.old.locks ≤ vec_capacity rests) }
    ensures locks { (vec_len locks.new.locks ≡ 0)
        × (vec_capacity locks.new.locks ≡ vec_capacity locks.old.locks) }
    ensures count { vec_len result.1 ≡ vec_len locks.old.locks }
    // Cells come out in the order of their slots, each with its slot, blocks and version beside it.
    ensures fit { map rest_told result.1.items ≡ map cell_told result.0.items }
    ensures slots { AreAllSlots result.1.items }
{
    while let Some((slot, locked)) = locks.take_last() {
        let LockedCell {
            ino,
            version,
            cell,
            beside,
        } = locked;
        let Beside { blocks, owner } = Beside::out_of(beside);
        cells.push_reserved(cell_or_empty(alloc, geometry, version, cell));
        rests.push_reserved(BesideCell {
            slot,
            ino,
            blocks,
            owner,
        });
    }
    cells.reverse();
    rests.reverse();
    (cells, rests)
}

/// The cell of a place. An empty place counts as an empty slot of its version, which then has no blocks. Takes no memory.
fn cell_or_empty(
    alloc: Global,
    geometry: &Geometry,
    version: u64,
    cell: Option<InodeCell>,
) -> InodeCell
    requires { IsAt version cell }
    ensures { cell_told result ≡ record { blocks = blocks_there cell; version = version } }
{
    match cell {
        Some(cell) => cell,
        None => {
            let page = geometry.numbers.page as usize;
            InodeCell::new(alloc, geometry.numbers.block, page, Gen::new(1), version)
        }
    }
}

/// Puts cells and what lay beside them behind locks again, each behind that of the slot that it was taken out of.
pub(crate) fn lock_cells<C: Commits, B: Blocks>(
    mut cells: Vec<InodeCell>,
    mut rests: Vec<BesideCell<C, B>>,
    locks: &mut CellLocks<C, B>,
)
    requires fit { map rest_told rests.items ≡ map cell_told cells.items }
    requires slots { AreAllSlots rests.items }
    requires room { (vec_len locks.old.locks ≡ 0)
        × (vec_len rests ≤ vec_capacity locks.old.locks) }
    // A cell goes back behind the lock of the slot that it came out of.
    ensures { vec_len locks.new.locks ≡ vec_len rests }
{
    cells.reverse();
    rests.reverse();
    while let Some(cell) = cells.pop() {
        let Some(rest) = rests.pop() else {
            unreachable!()
        };
        let BesideCell {
            slot,
            ino,
            blocks,
            owner,
        } = rest;
        let locked = LockedCell {
            ino,
            version: cell.version(),
            cell: Some(cell),
            beside: Beside { blocks, owner }.hidden(),
        };
        locks.put_back(slot, locked);
    }
    cells.destroy_empty();
}

/// Takes free lists out of their locks, and keeps what lay beside each.
pub(crate) fn unlock_lists<B: Blocks>(
    locks: &mut Vec<CachePadded<Mutex<LockedList<B>>>>,
    mut lists: Vec<FreeList>,
    mut rests: Vec<BesideList<B>>,
) -> (Vec<FreeList>, Vec<BesideList<B>>)
    requires empty { (lists.items ≡ []) × (rests.items ≡ []) }
    requires room { (vec_len locks.old ≤ vec_capacity lists)
        × (vec_len locks.old ≤ vec_capacity rests) }
    ensures locks { (vec_len locks.new ≡ 0) × (vec_capacity locks.new ≡ vec_capacity locks.old) }
    ensures count { vec_len result.1 ≡ vec_len locks.old }
    ensures fit { result.1.items ≡ map list_told result.0.items }
{
    while let Some(lock) = locks.pop() {
        let LockedList { list, blocks } = lock.into_inner().into_inner();
        lists.push_reserved(list);
        rests.push_reserved(BesideList { blocks });
    }
    lists.reverse();
    rests.reverse();
    (lists, rests)
}

/// Puts free lists and what lay beside them behind locks again.
pub(crate) fn lock_lists<B: Blocks>(
    mut lists: Vec<FreeList>,
    mut rests: Vec<BesideList<B>>,
    locks: &mut Vec<CachePadded<Mutex<LockedList<B>>>>,
)
    requires fit { rests.items ≡ map list_told lists.items }
    requires room { (vec_len locks.old ≡ 0) × (vec_len rests ≤ vec_capacity locks.old) }
    ensures { vec_len locks.new ≡ vec_len rests }
{
    while let Some(list) = lists.pop() {
        let Some(rest) = rests.pop() else {
            unreachable!()
        };
        let BesideList { blocks } = rest;
        locks.push_reserved(CachePadded::new(Mutex::new(LockedList { list, blocks })));
    }
    lists.destroy_empty();
    locks.reverse();
}
