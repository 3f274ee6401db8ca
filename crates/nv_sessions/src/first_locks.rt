//! The parts of a world go behind locks for the first time.

ghost use Rattle.std.specs.Prelude.{◌≡◌, ◌+◌, ◌<◌, ◌≤◌, IfOk, [], length, sum_by, vec_capacity, vec_len};
ghost use Rattle.nv_base.specs.Memory.{out_of_memory};
ghost use Rattle.nv_base.specs.Refusals.{FailsOnly};
ghost use Rattle.nv_base.specs.declared.limits.TheConstants.{ACTORS};
ghost use Rattle.nv_sessions.specs.Opened.{cell_blocks, list_blocks, versions_in};

use crate::beside::Beside;
use crate::cell::LockedCell;
use crate::cell_locks::CellLocks;
use crate::list::LockedList;
use crate::names::{Blocks, Commits};
use crate::passes::{Fresh, Maker};
use crate::seats::FreeSeat;
use crossbeam_utils::CachePadded;
use nv_alloc::FreeList;
use nv_base::{Fault, Ino, limits};
use nv_cell::InodeCell;
use std::alloc::Global;
use std::sync::ledger::Share;
use std::sync::{Mutex, RwLock, ledger};

/// Room for the locks of parts: of cells, lists and seats.
pub struct LockRoom<C: Commits, B: Blocks> {
    pub(crate) cells: CellLocks<C, B>,
    pub(crate) lists: Vec<CachePadded<Mutex<LockedList<B>>>>,
    pub(crate) seats: Vec<Mutex<FreeSeat<C, B>>>,
}

impl<C: Commits, B: Blocks> LockRoom<C, B> {
    /// Room for so many cells and lists, and for all seats. The only error is `OutOfMemory`.
    pub fn new(alloc: Global, cells: u64, lists: u64) -> Result<LockRoom<C, B>, Fault>
        ensures cells { IfOk result (λ room.
            (vec_len room.cells.locks ≡ 0) × (cells ≤ vec_capacity room.cells.locks)) }
        ensures lists { IfOk result (λ room.
            (room.lists.items ≡ []) × (lists ≤ vec_capacity room.lists)) }
        ensures seats { IfOk result (λ room.
            (room.seats.items ≡ []) × (ACTORS ≤ vec_capacity room.seats)) }
        ensures err { FailsOnly out_of_memory result }
    {
        let seats = Vec::with_capacity(alloc, limits::ACTORS as usize)?;
        let cells: Vec<RwLock<LockedCell<C, B>>> = Vec::with_capacity(alloc, cells as usize)?;
        match Vec::with_capacity(alloc, lists as usize) {
            Ok(lists) => Ok(LockRoom {
                cells: CellLocks::new(cells),
                lists,
                seats,
            }),
            Err(error) => {
                cells.destroy_empty();
                Err(Fault::from(error))
            }
        }
    }

    /// Gives the room back.
    pub fn destroy_empty(self)
        requires { (vec_len self.cells.locks ≡ 0) × (vec_len self.lists ≡ 0) }
    {
        let LockRoom {
            cells,
            lists,
            seats: _,
        } = self;
        cells.destroy_empty();
        lists.destroy_empty();
    }
}

/// Puts the cells behind locks, each with the owner of its inode and a share of its blocks.
pub(crate) fn lock_first_cells<C: Commits, B: Blocks>(
    fresh: &Fresh<C>,
    maker: &mut Maker<C>,
    book: &mut ledger::Book<B>,
    rest: &mut Share<B>,
    mut cells: Vec<InodeCell>,
    mut into: CellLocks<C, B>,
) -> CellLocks<C, B>
    requires opened { C.opened ≡ versions_in cells.items }
    requires maker { maker.old ≡ 0 }
    requires rest { (vec_len cells < rest.old.parts) × (rest.old.amount ≡ 0) }
    requires room { (vec_len into.locks ≡ 0) × (vec_len cells ≤ vec_capacity into.locks) }
    ensures count { vec_len result.locks ≡ vec_len cells }
    ensures rest { (rest.new.parts + vec_len cells ≡ rest.old.parts) × (rest.new.amount ≡ 0) }
    ensures total { book.new.total ≡ book.old.total + cell_blocks cells.items }
{
    cells.reverse();
    while let Some(cell) = cells.pop() {
        let mut blocks = rest.split_off(1, 0);
        book.add(&mut blocks, cell.blocks());
        let ino = Ino::new(into.len() as u64);
        let owner = maker.owner(fresh);
        into.add(LockedCell {
            ino,
            version: cell.version(),
            cell: Some(cell),
            beside: Beside { blocks, owner }.hidden(),
        });
    }
    cells.destroy_empty();
    into
}

/// Puts the lists behind padded locks, each with a share of its blocks.
pub(crate) fn lock_first_lists<B: Blocks>(
    book: &mut ledger::Book<B>,
    rest: &mut Share<B>,
    mut lists: Vec<FreeList>,
    mut into: Vec<CachePadded<Mutex<LockedList<B>>>>,
) -> Vec<CachePadded<Mutex<LockedList<B>>>>
    requires rest { (vec_len lists < rest.old.parts) × (rest.old.amount ≡ 0) }
    requires room { (into.items ≡ []) × (vec_len lists ≤ vec_capacity into) }
    ensures count { vec_len result ≡ vec_len lists }
    ensures rest { (rest.new.parts + vec_len lists ≡ rest.old.parts) × (rest.new.amount ≡ 0) }
    ensures total { book.new.total ≡ book.old.total + list_blocks lists.items }
{
    lists.reverse();
    while let Some(list) = lists.pop() {
        let mut blocks = rest.split_off(1, 0);
        book.add(&mut blocks, list.len());
        into.push_reserved(CachePadded::new(Mutex::new(LockedList { list, blocks })));
    }
    lists.destroy_empty();
    into
}
