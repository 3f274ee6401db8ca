//! What stands inside a world, part by part, wherever its calls stand.

ghost use Rattle.std.specs.Prelude.{◌≡◌, [], MatchOption, length};
ghost use Rattle.nv_machine.specs.World as machine;
ghost use Rattle.nv_machine.specs.World.{actor_at, cell_at, empty_hand, list_at, no_cell, no_list, owner_at};
ghost use Rattle.nv_core.specs.Shown.{hand_with, held_by, killed_in, shared_of};
ghost use Rattle.nv_core.specs.Worlds.{Shows};

use crate::World;
use crate::audit::hand_of;
use crate::reservation::Reservation;
use nv_alloc::{FreeList, Hand};
use nv_base::Ino;
use nv_book::Book;
use nv_calls::Commit;
use nv_cell::InodeCell;
use std::alloc::Global;

impl World {
    /// What gives the world its memory.
    pub fn alloc(&self) -> Global {
        self.alloc
    }

    /// The free list of a CPU.
    pub fn free_list(&self, cpu: u64) -> Option<&FreeList>
        // The very free list of a CPU is shown, and none where there is no such CPU.
        ensures { MatchOption result (list_at (shared_of self.now.shared) cpu ≡ no_list)
            (λ list. list_at (shared_of self.now.shared) cpu ≡ list.now) }
    {
        self.shared.lists.get(cpu as usize)
    }

    /// How many inode numbers are free.
    pub fn free_inodes(&self) -> u64
        // How many inode numbers are free is told.
        ensures { result ≡ length self.now.shared.pool.numbers }
    {
        self.shared.pool.len()
    }

    /// The cell of a slot.
    pub fn cell(&self, ino: Ino) -> Option<&InodeCell>
        // The very cell of an inode slot is shown, and none where there is no such slot.
        ensures { MatchOption result (cell_at (shared_of self.now.shared) ino ≡ no_cell)
            (λ cell. cell_at (shared_of self.now.shared) ino ≡ cell.now.state) }
    {
        self.shared.cell(ino)
    }

    /// The actor that has the lock of a slot.
    pub fn lock_owner(&self, ino: Ino) -> Option<u64>
        // The actor that has the lock of an inode slot is told, and nobody where there is no such slot.
        ensures { result ≡ owner_at (shared_of self.now.shared) ino }
    {
        match self.shared.owners.get(ino.number() as usize) {
            Some(owner) => *owner,
            None => None,
        }
    }

    /// The book.
    pub fn book(&self) -> &Book
        // The very book is shown.
        ensures { result.now ≡ self.now.shared.book }
    {
        &self.shared.book
    }

    /// The actor that has the commit lock.
    pub fn commit_owner(&self) -> Option<u64>
        // The actor that has the commit lock is told.
        ensures { result ≡ self.now.shared.holder }
    {
        self.shared.holder
    }

    /// What an actor has in its hand, wherever its call stands.
    pub fn hand(&self, actor: u64) -> Option<&Hand>
        // What an actor's call has taken and not yet placed is shown, and none where there is no such actor.
        ensures { (m : machine.World) → Shows self.now m
            → MatchOption result ((actor_at m actor).hand ≡ empty_hand)
            (λ hand. hand_with (actor_at m actor).hand.killed hand.now ≡ (actor_at m actor).hand) }
    {
        match self.actors.get(actor as usize) {
            Some(state) => Some(hand_of(&state.reserved)),
            None => None,
        }
    }

    /// The commit that an actor's call is in.
    pub fn commit_of(&self, actor: u64) -> Option<&Commit>
        // A commit shows what its publishes killed and did not yet retire; without one there is nothing such.
        ensures { (m : machine.World) → Shows self.now m
            → MatchOption result ((actor_at m actor).hand.killed ≡ [])
            (λ commit. (actor_at m actor).hand.killed ≡ killed_in commit.now) }
    {
        match self.actors.get(actor as usize) {
            Some(state) => commit_in(&state.reserved),
            None => None,
        }
    }
}

/// The commit among what an actor has.
fn commit_in(reserved: &Reservation) -> Option<&Commit>
    ensures { MatchOption result ((held_by reserved.now).killed ≡ [])
        (λ commit. (held_by reserved.now).killed ≡ killed_in commit.now) }
{
    match reserved {
        Reservation::Commit(commit) => Some(commit),
        _ => None,
    }
}
