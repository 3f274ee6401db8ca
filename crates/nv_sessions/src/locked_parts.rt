//! The parts of a world behind locks.

ghost use Rattle.std.specs.Prelude.{◌≡◌, ◌+◌, ◌≤◌, ◌↔◌, [], IfOk, IsTrue, MatchOption, Some, map, slice_get, vec_capacity, vec_len};
ghost use Rattle.std.specs.Option.{option_map};
ghost use Rattle.crossbeam_utils.specs.Padded.{padded_value};
ghost use Rattle.nv_base.specs.Memory.{out_of_memory};
ghost use Rattle.nv_base.specs.Refusals.{FailsOnly};
ghost use Rattle.nv_sessions.specs.UnlockedParts.{AreAllSlots, list_told, rest_told, cell_told};
ghost use Rattle.nv_sessions.specs.Seats.{AreSeats};
ghost use Rattle.nv_sessions.specs.Snapped.{AreSnapped};

use crate::book::LockedBook;
use crate::cell::LockedCell;
use crate::cell_locks::CellLocks;
use crate::deferred_flag::DeferredFlag;
use crate::list::LockedList;
use crate::names::{Blocks, Commits};
use crate::part_room::PartRoom;
use crate::passes::Fresh;
use crate::seats::{Seating, are_seats};
use crate::session::Session;
use crate::unlocked::{unlock_cells, unlock_lists};
use crate::unlocked_parts::UnlockedParts;
use crossbeam_utils::CachePadded;
use nv_alloc::InodePool;
use nv_base::{Fault, Geometry, Ino, Items};
use nv_parts::Parts;
use std::alloc::Global;
use std::sync::ledger::Total;
use std::sync::{Mutex, RwLock};

/// The parts of a world behind locks: a cell for each inode slot, a free list for each CPU, the pool of inode numbers, and
/// the book. The lists, the pool, the book and the flag of its deferred records have cache lines of their own. All blocks
/// together are those of the device.
pub struct LockedParts<C: Commits, B: Blocks> {
    pub(crate) alloc: Global,
    pub(crate) geometry: Geometry,
    pub(crate) cells: CellLocks<C, B>,
    pub(crate) lists: Vec<CachePadded<Mutex<LockedList<B>>>>,
    pub(crate) pool: CachePadded<Mutex<InodePool>>,
    pub(crate) book: CachePadded<Mutex<LockedBook<C>>>,
    pub(crate) deferred_flag: CachePadded<DeferredFlag>,
    pub(crate) fresh: Fresh<C>,
    pub(crate) seating: Seating<C, B>,
    pub(crate) total: Total<B>,
    // The total of its ledger of blocks is the device's number of blocks, and all parts of the ledger are accounted
    // for.
    ghost placed: { vec_len cells.locks + vec_len lists ≡ B.placed },
    // Each slot has a lock, and so has each CPU.
    ghost slots: { vec_len cells.locks ≡ geometry.numbers.inodes },
    ghost cpus: { vec_len lists ≡ geometry.numbers.cpus },
    ghost all_parts: { total.parts ≡ B.whole },
    ghost all_blocks: { total.amount ≡ geometry.numbers.blocks },
}

impl<C: Commits, B: Blocks> LockedParts<C, B> {
    /// The numbers of the device.
    pub fn geometry(&self) -> &Geometry
        ensures { result.now ≡ self.now.geometry }
    {
        &self.geometry
    }

    /// The lock of an inode's cell, where there is such a slot: each slot has its own.
    /// Only tested: each inode slot and each CPU has a lock of its own.
    pub fn inode_lock(&self, ino: Ino) -> Option<&RwLock<LockedCell<C, B>>>
        // There is a lock exactly for the number of an inode slot.
        ensures { MatchOption result (vec_len self.now.cells.locks ≤ ino)
            (λ lock. slice_get self.now.cells.locks.items ino ≡ Some lock.now) }
    {
        self.cells.get(ino.number() as usize)
    }

    /// The lock of a CPU's free list, where there is such a CPU.
    pub fn list_lock(&self, cpu: u64) -> Option<&Mutex<LockedList<B>>>
        // There is a lock exactly for the number of a CPU, and one for the book.
        ensures { MatchOption result (vec_len self.now.lists ≤ cpu)
            (λ lock. option_map padded_value (slice_get self.now.lists.items cpu)
            ≡ Some lock.now) }
    {
        let padded = self.lists.get(cpu as usize)?;
        Some(&**padded)
    }

    /// The lock of the book: the commit lock.
    pub fn book_lock(&self) -> &Mutex<LockedBook<C>>
        ensures { result.now ≡ padded_value self.now.book }
    {
        &self.book
    }
}

impl<C: Commits, B: Blocks> LockedParts<C, B> {
    /// Whether these are the sessions of all seats that were given out, each once.
    pub fn has_all_seats(&self, sessions: &[Session<C, B>]) -> bool
        ensures { IsTrue result
            ↔ AreSeats self.now.seating.given (map (λ s. s.number) sessions.now) }
    {
        are_seats(sessions, self.seating.given)
    }

    /// Room for all parts outside their locks. The only error is `OutOfMemory`.
    pub fn part_room(&self, alloc: Global) -> Result<PartRoom<C, B>, Fault>
        ensures cells { IfOk result (λ room. (room.cells.items ≡ [])
            × (vec_len self.now.cells.locks ≤ vec_capacity room.cells)) }
        ensures cell_rests { IfOk result (λ room. (room.cell_rests.items ≡ [])
            × (vec_len self.now.cells.locks ≤ vec_capacity room.cell_rests)) }
        ensures lists { IfOk result (λ room. (room.lists.items ≡ [])
            × (vec_len self.now.lists ≤ vec_capacity room.lists)) }
        ensures list_rests { IfOk result (λ room. (room.list_rests.items ≡ [])
            × (vec_len self.now.lists ≤ vec_capacity room.list_rests)) }
        ensures err { FailsOnly out_of_memory result }
    {
        PartRoom::new(alloc, self.cells.len(), self.lists.len())
    }

    /// Takes all values out of their locks, which nobody holds: the parts, and what lay beside them. Takes no memory.
    pub fn unlock(self, room: PartRoom<C, B>) -> (Parts, UnlockedParts<C, B>)
        requires cells { (room.cells.items ≡ [])
            × (vec_len self.cells.locks ≤ vec_capacity room.cells) }
        requires cell_rests { (room.cell_rests.items ≡ [])
            × (vec_len self.cells.locks ≤ vec_capacity room.cell_rests) }
        requires lists { (room.lists.items ≡ []) × (vec_len self.lists ≤ vec_capacity room.lists) }
        requires list_rests { (room.list_rests.items ≡ [])
            × (vec_len self.lists ≤ vec_capacity room.list_rests) }
        // Beside each cell lay as many blocks as it has, and its version, in the order of the slots.
        ensures cells { map rest_told result.1.cells.items ≡ map cell_told result.0.cells }
        ensures count { vec_len result.1.cells ≡ vec_len self.cells.locks }
        ensures slots { AreAllSlots result.1.cells.items }
        ensures lists { result.1.lists.items ≡ map list_told result.0.lists }
        ensures commits { result.0.book.state.commit ≡ C.commit + result.1.commits.total }
        ensures snapshots { AreSnapped C.living C.epoch result.0.book.state.snaps
            result.1.snap_book.total }
        ensures geometry { (result.0.geometry ≡ self.geometry)
            × (result.1.geometry ≡ self.geometry) }
        ensures total { result.1.total ≡ self.total }
        ensures given { result.1.seating.given ≡ self.seating.given }
    {
        let LockedParts {
            alloc,
            geometry,
            cells: mut cell_locks,
            lists: mut list_locks,
            pool,
            book,
            deferred_flag: _,
            fresh,
            seating,
            total,
        } = self;
        let PartRoom {
            cells,
            cell_rests,
            lists,
            list_rests,
        } = room;
        let (cells, cell_rests) = unlock_cells(
            alloc,
            &geometry,
            &mut cell_locks,
            cells,
            cell_rests,
        );
        let (lists, list_rests) = unlock_lists(&mut list_locks, lists, list_rests);
        let LockedBook {
            book,
            commits,
            snap_book,
            flagged: _,
        } = book.into_inner().into_inner();
        let parts = Parts {
            geometry,
            cells: Items::from_vec(cells),
            lists: Items::from_vec(lists),
            pool: pool.into_inner().into_inner(),
            book,
        };
        let rests = UnlockedParts {
            alloc,
            geometry,
            cell_locks,
            cells: cell_rests,
            list_locks,
            lists: list_rests,
            commits,
            snap_book,
            fresh,
            seating,
            total,
        };
        (parts, rests)
    }
}

impl<C: Commits, B: Blocks> Drop for LockedParts<C, B> {
    /// Each block that the parts own ends here.
    fn drop(self) {
        let LockedParts {
            alloc: _,
            geometry: _,
            cells,
            lists,
            pool: _,
            book: _,
            deferred_flag: _,
            fresh: _,
            seating: _,
            total: _,
        } = self;
        dismantle_cells(cells);
        dismantle_lists(lists);
    }
}

/// Takes all cells apart with their blocks.
fn dismantle_cells<C: Commits, B: Blocks>(mut locks: CellLocks<C, B>) {
    while let Some((_slot, locked)) = locks.take_last() {
        locked.dismantle();
    }
    locks.destroy_empty();
}

/// Takes all lists apart with their blocks.
fn dismantle_lists<B: Blocks>(mut locks: Vec<CachePadded<Mutex<LockedList<B>>>>) {
    while let Some(lock) = locks.pop() {
        lock.into_inner().into_inner().dismantle();
    }
    locks.destroy_empty();
}
