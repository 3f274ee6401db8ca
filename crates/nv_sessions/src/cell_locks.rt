//! The locks of all cells, a slot's at its place.

ghost use Rattle.std.specs.Prelude.{◌≡◌, ◌+◌, ◌<◌, ◌≤◌, [], IfSome, MatchOption, Some, slice_get, vec_capacity, vec_len};

use crate::cell::LockedCell;
use crate::names::{Blocks, Commits};
use std::marker::Model;
use std::sync::RwLock;

/// The slot that a cell was taken out of. Only taking it out gives one, and it is used up where the cell goes back.
#[derive(Drop)]
pub(crate) struct Slot {
    number: u64,
}

impl Model for Slot {
    ghost use Rattle.std.specs.Prelude.{ℕ};

    ghost Value = { ℕ };

    ghost view = { λ s. s.number };
}

/// The locks of all cells, by slot. A cell goes in at the end alone: behind the lock of its own inode's slot, or behind
/// that of the slot that it was taken out of.
pub(crate) struct CellLocks<C: Commits, B: Blocks> {
    locks: Vec<RwLock<LockedCell<C, B>>>,
}

impl<C: Commits, B: Blocks> CellLocks<C, B> {
    /// No locks, in room that was made before.
    pub(crate) fn new(room: Vec<RwLock<LockedCell<C, B>>>) -> CellLocks<C, B>
        requires { room.items ≡ [] }
        ensures none { vec_len result.locks ≡ 0 }
        ensures room { vec_capacity result.locks ≡ vec_capacity room }
    {
        CellLocks { locks: room }
    }

    /// How many there are.
    pub(crate) fn len(&self) -> usize
        ensures { result ≡ vec_len self.now.locks }
    {
        self.locks.len()
    }

    /// The lock of a slot, where there is such a slot.
    pub(crate) fn get(&self, slot: usize) -> Option<&RwLock<LockedCell<C, B>>>
        ensures { MatchOption result (vec_len self.now.locks ≤ slot)
            (λ lock. slice_get self.now.locks.items slot ≡ Some lock.now) }
    {
        self.locks.get(slot)
    }

    /// Puts a cell behind a lock of its own, that of its inode's slot.
    pub(crate) fn add(&mut self, cell: LockedCell<C, B>)
        requires next { cell.ino ≡ vec_len self.old.locks }
        requires room { vec_len self.old.locks < vec_capacity self.old.locks }
        ensures count { vec_len self.new.locks ≡ vec_len self.old.locks + 1 }
        ensures room { vec_capacity self.new.locks ≡ vec_capacity self.old.locks }
    {
        self.locks.push_reserved(RwLock::new(cell));
    }

    /// Puts a cell behind a lock again, that of the slot that it was taken out of.
    pub(crate) fn put_back(&mut self, slot: Slot, cell: LockedCell<C, B>)
        requires next { slot ≡ vec_len self.old.locks }
        requires room { vec_len self.old.locks < vec_capacity self.old.locks }
        ensures count { vec_len self.new.locks ≡ vec_len self.old.locks + 1 }
        ensures room { vec_capacity self.new.locks ≡ vec_capacity self.old.locks }
    {
        let Slot { number: _ } = slot;
        self.locks.push_reserved(RwLock::new(cell));
    }

    /// Takes the cell of the last slot out of its lock. The room stays.
    pub(crate) fn take_last(&mut self) -> Option<(Slot, LockedCell<C, B>)>
        ensures taken { MatchOption result
            ((vec_len self.old.locks ≡ 0) × (vec_len self.new.locks ≡ 0))
            (λ taken. vec_len self.new.locks + 1 ≡ vec_len self.old.locks) }
        // The slot of a cell is told when it is taken out.
        ensures slot { IfSome result (λ taken. taken.0 ≡ vec_len self.new.locks) }
        ensures room { vec_capacity self.new.locks ≡ vec_capacity self.old.locks }
    {
        let lock = self.locks.pop()?;
        let slot = Slot {
            number: self.locks.len() as u64,
        };
        Some((slot, lock.into_inner()))
    }

    /// Gives the room back.
    pub(crate) fn destroy_empty(self)
        requires { vec_len self.locks ≡ 0 }
    {
        let CellLocks { locks } = self;
        locks.destroy_empty();
    }
}
