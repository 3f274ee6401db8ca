//! What lies beside a part under its lock.

ghost use Rattle.std.specs.Prelude.{◌≡◌, ◌+◌, ◌≤◌, ◌↔◌, [], All, IsTrue, sum_by, vec_capacity, vec_len};
ghost use Rattle.nv_sessions.specs.UnlockedParts.{AreInPlace, IsKnown};

use crate::cell_locks::{CellLocks, Slot};
use crate::gather::{gather_cells, gather_lists, gather_seats, gather_sessions};
use crate::list::LockedList;
use crate::names::{Blocks, Commits, SnapLedger};
use crate::passes::{Fresh, Owner};
use crate::seats::{Reserve, Seating};
use crate::session::Session;
use crossbeam_utils::CachePadded;
use nv_base::{Geometry, Ino};
use std::alloc::Global;
use std::marker::Model;
use std::sync::ledger::{Share, Total};
use std::sync::{Mutex, Wait, ledger};

/// What lies beside a cell: the slot that it was taken out of, the number of its inode, the share of its blocks, and the
/// pass that owns the inode.
#[derive(Drop)]
pub(crate) struct BesideCell<C: Commits, B: Blocks> {
    pub(crate) slot: Slot,
    pub(crate) ino: Ino,
    pub(crate) blocks: Share<B>,
    pub(crate) owner: Owner<C>,
}

impl<C: Commits, B: Blocks> Model for BesideCell<C, B> {
    ghost use Rattle.std.specs.Prelude.{◌≡◌};
    ghost use Rattle.nv_sessions.specs.Locked.{version_at};
    ghost use Rattle.nv_sessions.specs.UnlockedParts.{BesideCellValue};

    ghost Value = { BesideCellValue };

    ghost view = { λ r. record {
      slot = r.slot;
      ino = r.ino;
      blocks = r.blocks.amount;
      version = version_at C.opened r.ino r.owner.version;
    } };

    ghost invariant = { λ r. (r.blocks.parts ≡ 1) × (r.owner.ino ≡ r.ino) };
}

/// What lies beside a free list: the share of its blocks, seen as how many they are.
#[derive(Drop)]
pub(crate) struct BesideList<B: Blocks> {
    pub(crate) blocks: Share<B>,
}

impl<B: Blocks> Model for BesideList<B> {
    ghost use Rattle.std.specs.Prelude.{◌≡◌, ℕ};

    ghost Value = { ℕ };

    ghost view = { λ r. r.blocks.amount };

    ghost invariant = { λ r. r.blocks.parts ≡ 1 };
}

/// What lies beside the parts of a world while these are out of their locks: what lay beside each, and the room of the
/// locks.
pub struct UnlockedParts<C: Commits, B: Blocks> {
    pub(crate) alloc: Global,
    pub(crate) geometry: Geometry,
    pub(crate) cell_locks: CellLocks<C, B>,
    pub(crate) cells: Vec<BesideCell<C, B>>,
    pub(crate) list_locks: Vec<CachePadded<Mutex<LockedList<B>>>>,
    pub(crate) lists: Vec<BesideList<B>>,
    pub(crate) commits: ledger::Book<C>,
    pub(crate) snap_book: ledger::Book<SnapLedger<C>>,
    pub(crate) fresh: Fresh<C>,
    pub(crate) seating: Seating<C, B>,
    pub(crate) total: Total<B>,
    ghost no_locks: { (vec_len cell_locks.locks ≡ 0) × (vec_len list_locks ≡ 0) },
    ghost room: { (vec_len cells ≤ vec_capacity cell_locks.locks)
        × (vec_len lists ≤ vec_capacity list_locks) },
    ghost placed: { vec_len cells + vec_len lists ≡ B.placed },
    // What lay beside the cell of each slot is there, and beside the list of each CPU.
    ghost slots: { vec_len cells ≡ geometry.numbers.inodes },
    ghost cpus: { vec_len lists ≡ geometry.numbers.cpus },
    ghost all_parts: { total.parts ≡ B.whole },
    ghost all_blocks: { total.amount ≡ geometry.numbers.blocks },
}

impl<C: Commits, B: Blocks> UnlockedParts<C, B> {
    /// Whether each cell came out of its own slot's lock.
    pub fn are_in_place(&self) -> bool
        ensures { IsTrue result ↔ AreInPlace self.now.cells.items }
    {
        are_in_place(&self.cells)
    }

    /// Takes in all shares, those of the sessions too, and what all have seen: the commits of the sessions are all that the
    /// ledger counts, and so are their makings and drops of snapshots; no owner's version is below that of the opening, no
    /// session has seen more of an inode than its owner has, and no list and no cell has a block that is not of the total.
    /// What the hands of the sessions hold ends here.
    pub fn add_up<R: Wait>(self, rt: &R, sessions: Vec<Session<C, B>>)
        requires seats { vec_len sessions ≡ self.seating.given }
        ensures commits { self.commits.total ≡ sum_by (λ s. s.commits) sessions.items }
        ensures snapshots { self.snap_book.total ≡ sum_by (λ s. s.snapped) sessions.items }
        ensures blocks { sum_by (λ r. r) self.lists.items + sum_by (λ r. r.blocks) self.cells.items
            ≤ self.total.amount }
        ensures versions { All (IsKnown C.opened []) self.cells.items }
        ensures seen { All (λ s. All (IsKnown C.opened s.seen) self.cells.items) sessions.items }
    {
        let UnlockedParts {
            alloc: _,
            geometry: _,
            cell_locks,
            cells,
            list_locks,
            lists,
            mut commits,
            mut snap_book,
            fresh,
            seating,
            total,
        } = self;
        cell_locks.destroy_empty();
        list_locks.destroy_empty();
        let Seating {
            free,
            given: _,
            reserve,
        } = seating;
        let Reserve {
            cut: _,
            mut notes,
            commits: mut made,
            mut snapped,
            blocks: mut held,
        } = reserve.into_inner();
        gather_sessions(
            &fresh,
            sessions,
            &mut made,
            &mut snapped,
            &mut held,
            &mut notes,
        );
        gather_seats(free, &mut made, &mut snapped, &mut held);
        gather_cells(rt, &fresh, &mut notes, cells, &mut held);
        gather_lists(lists, &mut held);
        total.audit(&mut held);
        commits.audit(&mut made);
        snap_book.audit(&mut snapped);
    }
}

/// Whether each cell came out of its own slot's lock.
fn are_in_place<C: Commits, B: Blocks>(cells: &[BesideCell<C, B>]) -> bool
    ensures { IsTrue result ↔ AreInPlace cells.now }
{
    for (slot, cell) in cells.iter().enumerate() {
        if cell.ino.number() != slot as u64 {
            return false;
        }
    }
    true
}
